// A new board.
ghost use Rattle.std.specs.Prelude.{◌≡◌};
ghost use Rattle.facts.specs.Forms.{made};
ghost use Rattle.boards.specs.Boards.{board_meaning};
ghost use Rattle.boards.specs.Makings.{found_memory};
ghost use Rattle.bench.specs.Stands.{stand_of};
ghost use Rattle.bench.specs.Makings.{form_made, make_answer, make_after, Starts};

use crate::place::Place;
use crate::standing::{Bench, Standing};
use board::Board;
use boards::{AnyBoard, NotMade};
use callforms::BoardForm;
use months::Months;
use std::alloc::Global;

// The board of a form.
fn board_of(heap: Global, form: BoardForm) -> Result<AnyBoard, NotMade>
    ensures { made board_meaning result ≡ form_made (found_memory result) form }
{
    match form {
        BoardForm::Table { capacity, length } => AnyBoard::table(heap, capacity, length),
        BoardForm::Journal {
            capacity,
            limit,
            length,
        } => AnyBoard::journal(heap, capacity, limit, length),
    }
}

impl Bench {
    // Makes a new board in place of what stands, and answers its capacity and its limit. All the memory that a cabinet over it will need is taken here. Where the board is refused, or no memory is found, what stood stays.
    pub fn make(&mut self, heap: Global, form: BoardForm) -> Result<(u64, u64), NotMade>
        ensures answer { result ≡ make_answer (found_memory result) form }
        ensures after { stand_of self.new ≡ make_after (found_memory result) form (stand_of self.old) }
        ensures starts { Starts result (stand_of self.new) }
    {
        let board = board_of(heap, form)?;
        // Both are made first, so that there is one refusal for want of memory.
        let (Ok(months), Ok(place)) = (Months::new(heap), Place::new(heap)) else {
            return Err(NotMade::NoMemory);
        };
        let figures = (board.capacity(), board.limit());
        self.standing = Standing::Board(months, board, place);
        Ok(figures)
    }
}
