// What stands.
ghost use Rattle.std.specs.Prelude.{◌≡◌};
ghost use Rattle.bench.specs.Stands.{nothing, stand_of, stood_by, is_board, taken};

use crate::place::Place;
use boards::AnyBoard;
use cabinet::Cabinet;
use months::Months;
use std::mem;

// Nothing; a board, with the memory that a cabinet over it will need; or a cabinet over a board, with the place for its answers.
// One type, since a desk goes from one to the next while lines come in.
#[derive(Drop)]
pub(crate) enum Standing {
    Nothing,
    Board(Months, AnyBoard, Place),
    Cabinet(Cabinet<AnyBoard>, Place),
}

impl Standing {
    // Whether a board stands that no cabinet has taken.
    fn is_board(&self) -> bool
        ensures { result ≡ is_board (stood_by self.now) }
    {
        matches!(self, Standing::Board(..))
    }

    // The same with a cabinet over the board, where one stands.
    fn taken(self) -> Standing
        ensures { stood_by result ≡ taken (stood_by self) }
    {
        match self {
            Standing::Nothing => Standing::Nothing,
            Standing::Board(months, board, place) => {
                Standing::Cabinet(Cabinet::with(months, board), place)
            }
            Standing::Cabinet(cabinet, place) => Standing::Cabinet(cabinet, place),
        }
    }
}

// What stands at the desk.
#[derive(Drop)]
pub struct Bench {
    pub(crate) standing: Standing,
}

impl Bench {
    // Nothing yet.
    pub fn new() -> Bench
        ensures { stand_of result ≡ nothing }
    {
        Bench {
            standing: Standing::Nothing,
        }
    }

    // Makes the cabinet over the board as it stands, where no cabinet has taken it.
    pub(crate) fn take(&mut self)
        ensures { stand_of self.new ≡ taken (stand_of self.old) }
    {
        if self.standing.is_board() {
            let board = mem::replace(&mut self.standing, Standing::Nothing);
            self.standing = board.taken();
        }
    }
}
