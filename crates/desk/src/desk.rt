// What a script is played on.
ghost use Rattle.std.specs.Prelude.{◌≡◌};
ghost use Rattle.desk.specs.Desks.{desk_of, new_desk};

use bench::Bench;
use house::House;

// A desk: the house sheet, and the board or the cabinet that stands. The house sheet is no part of a cabinet and outlives it.
#[derive(Drop)]
pub struct Desk {
    pub(crate) house: House,
    pub(crate) bench: Bench,
}

impl Desk {
    // A desk with no line on the house sheet, where nothing stands.
    pub fn new() -> Desk
        ensures { desk_of result ≡ new_desk }
    {
        Desk {
            house: House::new(),
            bench: Bench::new(),
        }
    }
}
