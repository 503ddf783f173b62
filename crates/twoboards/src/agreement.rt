// Whether two cabinets answered the same.
ghost use Rattle.std.specs.Prelude.{◌≡◌, Decides};
ghost use Rattle.run.specs.Asked.{told};

use run::Answer;

// Whether two answers tell the same.
pub fn is_alike(left: &Answer, right: &Answer) -> bool
    ensures { Decides result (told left.now ≡ told right.now) }
{
    left == right
}
