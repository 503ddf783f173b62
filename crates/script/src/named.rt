// What the words of a script can name.
ghost use Rattle.std.specs.Prelude.{◌≡◌, ℕ, List};
ghost use Rattle.std.specs.List.{find};
ghost use Rattle.words.specs.Words.{is_word};

use words::is_word;

// What has a word for its name.
pub trait Named: Copy {
    ghost name_of: { Self → List ℕ };

    // The word that names it.
    fn name(self) -> &'static str
        ensures { result.now ≡ name_of self };
}

// The first of these that a word names.
pub fn first_named<T: Named>(these: &[T], word: &[u8]) -> Option<T>
    ensures { result ≡ find (λ x. is_word word.now (T.name_of x)) these.now }
{
    these
        .iter()
        .copied()
        .find(|x| is_word(word, x.name().as_bytes()))
}
