// Why a board refuses.
ghost use Rattle.std.specs.Prelude.{◌≡◌};
ghost use Rattle.board.specs.Faults.{board_refusal};

use refusal::{Layer, Refusal};

// What a board refuses: a number past the capacity and a new row where the limit stands, each with the number handed in,
// and figures or a memory that no board can be made of, with the memory's length.
#[derive(Clone, Copy, PartialEq, Eq, Debug)]
pub enum BoardFault {
    Outside(u64),
    Full(u64),
    Unfit(u64),
}

// The refusal that a fault is, with its number, layer and place.
impl From<BoardFault> for Refusal {
    ghost from_gives = { λ fault refusal. refusal ≡ board_refusal fault };

    fn from(fault: BoardFault) -> Refusal {
        let (number, place) = match fault {
            BoardFault::Outside(account) => (3, account),
            BoardFault::Full(account) => (6, account),
            BoardFault::Unfit(length) => (22, length),
        };
        Refusal {
            number,
            layer: Layer::Board,
            place,
        }
    }
}
