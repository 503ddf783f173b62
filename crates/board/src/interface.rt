// The calls that every board has, and what each answers and leaves.
ghost use Rattle.std.specs.Prelude.{◌≡◌};
ghost use Rattle.board.specs.Meaning.{BoardMeaning, Row, Lawful, read_answer, read_place, read_after, store_answer, stored, clear_answer, cleared};

use crate::fault::BoardFault;

// A board by what it means. Numbers come in at 64 bits, so that any number gets its answer.
pub trait Board {
    // What a board of this kind means.
    ghost meaning: { Self → BoardMeaning Row };

    // How many numbers the board has.
    fn capacity(&self) -> u64
        ensures { result ≡ (meaning self.now).capacity };

    // How many rows may stand at once.
    fn limit(&self) -> u64
        ensures { result ≡ (meaning self.now).limit };

    // Copies the row of a number into the place and says yes, or says no and leaves the place.
    // A board has no memory to hand a row out by, so it goes into the caller's place.
    fn read(&mut self, number: u64, place: &mut [u8; 128]) -> Result<bool, BoardFault>
        ensures answer { result ≡ read_answer (meaning self.old) number }
        ensures place { place.new ≡ read_place (meaning self.old) number place.old }
        ensures after { meaning self.new ≡ read_after (meaning self.old) number };

    // Sets the row of a number.
    fn store(&mut self, number: u64, row: &[u8; 128]) -> Result<(), BoardFault>
        ensures answer { result ≡ store_answer (meaning self.old) number }
        ensures after { meaning self.new ≡ stored (meaning self.old) number row.now };

    // Removes the row of a number, if one stands.
    fn clear(&mut self, number: u64) -> Result<(), BoardFault>
        ensures answer { result ≡ clear_answer (meaning self.old) number }
        ensures after { meaning self.new ≡ cleared (meaning self.old) number };

    // What holds of every board: its figures keep their limits, no more rows stand than may, and each has its 128 bytes.
    ghost lawful: { (b : Self) → Lawful (meaning b) };
}
