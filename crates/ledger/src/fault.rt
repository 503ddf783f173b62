// Why the ledger refuses.
ghost use Rattle.std.specs.Prelude.{◌≡◌};
ghost use Rattle.ledger.specs.Faults.{ledger_refusal};
ghost use Rattle.ledger.specs.declared.fault.LedgerFault.TheVariants.{Board as OfBoard};

use account::AccountFault;
use board::BoardFault;
use refusal::{Layer, Refusal};

// A board's refusal as it came, or an account's with the number of the account.
#[derive(Clone, Copy)]
pub enum LedgerFault {
    Board(BoardFault),
    Account(u64, AccountFault),
}

impl From<BoardFault> for LedgerFault {
    ghost from_gives = { λ b l. l ≡ OfBoard b };

    fn from(value: BoardFault) -> LedgerFault {
        LedgerFault::Board(value)
    }
}

// The refusal that a fault is: the board's own, or the account's cause with its number as the place.
impl From<LedgerFault> for Refusal {
    ghost from_gives = { λ fault refusal. refusal ≡ ledger_refusal fault };

    fn from(fault: LedgerFault) -> Refusal {
        match fault {
            LedgerFault::Board(fault) => fault.into(),
            LedgerFault::Account(number, cause) => Refusal {
                number: cause.into(),
                layer: Layer::Ledger,
                place: number,
            },
        }
    }
}
