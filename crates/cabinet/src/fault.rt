// Why the cabinet refuses.
ghost use Rattle.std.specs.Prelude.{◌≡◌};
ghost use Rattle.cabinet.specs.Faults.{cabinet_refusal};
ghost use Rattle.cabinet.specs.declared.fault.CabinetFault.TheVariants.{Ledger as OfLedger, Post as OfPost};

use ledger::LedgerFault;
use months::PostFault;
use refusal::{Layer, Refusal};

// The ledger's refusal as it came, a posting's, or one of settling's own with the number of the account.
#[derive(Clone, Copy)]
pub enum CabinetFault {
    Ledger(LedgerFault),
    Post(PostFault),
    // the end month is not posted
    NotPosted(u64),
    // the sheet permits no plan
    NoPlan(u64),
}

impl From<LedgerFault> for CabinetFault {
    ghost from_gives = { λ l c. c ≡ OfLedger l };

    fn from(value: LedgerFault) -> CabinetFault {
        CabinetFault::Ledger(value)
    }
}

impl From<PostFault> for CabinetFault {
    ghost from_gives = { λ p c. c ≡ OfPost p };

    fn from(value: PostFault) -> CabinetFault {
        CabinetFault::Post(value)
    }
}

// The refusal that a fault is.
impl From<CabinetFault> for Refusal {
    ghost from_gives = { λ fault refusal. refusal ≡ cabinet_refusal fault };

    fn from(fault: CabinetFault) -> Refusal {
        match fault {
            CabinetFault::Ledger(fault) => fault.into(),
            CabinetFault::Post(fault) => fault.into(),
            CabinetFault::NotPosted(account) => Refusal {
                number: 12,
                layer: Layer::Cabinet,
                place: account,
            },
            CabinetFault::NoPlan(account) => Refusal {
                number: 13,
                layer: Layer::Cabinet,
                place: account,
            },
        }
    }
}
