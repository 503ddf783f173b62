// Rows as the board holds them, and those of an earlier user of the board.
ghost use Rattle.std.specs.Prelude.{◌≡◌};
ghost use Rattle.bench.specs.Stands.{stand_of};
ghost use Rattle.bench.specs.Deeds.{row_reply, row_place, row_after, store_reply, store_after, clear_reply, clear_after};

use crate::standing::{Bench, Standing};
use board::{Board, BoardFault};
use refusal::Refusal;

impl Bench {
    // Copies the row of a number into the place as the board holds it and says yes, or says no where none stands and leaves the place. None where nothing stands.
    pub fn row(&mut self, number: u64, place: &mut [u8; 128]) -> Option<Result<bool, Refusal>>
        ensures answer { result ≡ row_reply (stand_of self.old) number }
        ensures place { place.new ≡ row_place (stand_of self.old) number place.old }
        ensures after { stand_of self.new ≡ row_after (stand_of self.old) number }
    {
        match &mut self.standing {
            Standing::Nothing => None,
            Standing::Board(_, board, _) => Some(board.read(number, place).map_err(Refusal::from)),
            Standing::Cabinet(cabinet, _) => Some(
                cabinet.row(number, place).map_err(Refusal::from),
            ),
        }
    }

    // An earlier user of the board stores a row. None once a cabinet has taken the board, and where nothing stands.
    pub fn store(&mut self, number: u64, row: &[u8; 128]) -> Option<Result<(), BoardFault>>
        ensures answer { result ≡ store_reply (stand_of self.old) number }
        ensures after { stand_of self.new ≡ store_after (stand_of self.old) number row.now }
    {
        match &mut self.standing {
            Standing::Board(_, board, _) => Some(board.store(number, row)),
            Standing::Nothing | Standing::Cabinet(_, _) => None,
        }
    }

    // An earlier user of the board clears a row. None once a cabinet has taken the board, and where nothing stands.
    pub fn clear(&mut self, number: u64) -> Option<Result<(), BoardFault>>
        ensures answer { result ≡ clear_reply (stand_of self.old) number }
        ensures after { stand_of self.new ≡ clear_after (stand_of self.old) number }
    {
        match &mut self.standing {
            Standing::Board(_, board, _) => Some(board.clear(number)),
            Standing::Nothing | Standing::Cabinet(_, _) => None,
        }
    }
}
