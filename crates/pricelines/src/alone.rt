// What a script of pricing lines is played on.
ghost use Rattle.std.specs.Prelude.{◌≡◌, []};
ghost use Rattle.house.specs.Houses.{lines_of};

use house::House;

// The house sheet alone, with no board and no cabinet beside it.
#[derive(Drop)]
pub struct Pricing {
    pub house: House,
}

impl Pricing {
    // A house sheet with no line.
    pub fn new() -> Pricing
        ensures { lines_of result.house ≡ [] }
    {
        Pricing {
            house: House::new(),
        }
    }
}
