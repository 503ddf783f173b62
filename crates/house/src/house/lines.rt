// The lines that a house sheet holds.
ghost use Rattle.std.specs.Prelude.{◌≡◌, ◌+◌, ◌<◌, true, [], ◌∷◌, ◌++◌, IfSome};
ghost use Rattle.house.specs.Lines.{line_fits};
ghost use Rattle.house.specs.Tariffs.{line_of_code};
ghost use Rattle.house.specs.Houses.{lines_of};

use super::House;
use crate::line::Line;
use pricing::UnitRate;

// What stands in a place that is not in use.
const NO_RATE: UnitRate = UnitRate { ne: 0, nc: 0 };

const NO_LINE: Line = Line {
    charge: 0,
    charge_a_tenth: 0,
    free_tenths: 0,
    least_power: 0,
    day: NO_RATE,
    night: NO_RATE,
};

impl House {
    // A sheet without lines, which permits nothing.
    pub fn new() -> House
        ensures lines { lines_of result ≡ [] }
        ensures count { result.count ≡ 0 }
    {
        House {
            lines: [NO_LINE; 8],
            count: 0,
        }
    }

    // The lines, in the order of their codes.
    pub fn lines(&self) -> &[Line]
        ensures { result.now ≡ lines_of self.now }
    {
        &self.lines[0..self.count]
    }

    // The line of a code.
    pub fn line(&self, code: u64) -> Option<Line>
        ensures value { result ≡ line_of_code (lines_of self.now) code }
        ensures limits { IfSome result (λ l. line_fits l ≡ true) }
    {
        self.lines().get(code as usize).copied()
    }

    // Puts one more line behind the others.
    pub(super) fn push(&mut self, line: Line)
        requires { (self.old.count < 8) × (line_fits line ≡ true) }
        ensures lines { lines_of self.new ≡ lines_of self.old ++ line ∷ [] }
        ensures count { self.new.count ≡ self.old.count + 1 }
    {
        self.lines[self.count] = line;
        self.count += 1;
    }
}
