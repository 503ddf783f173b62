// Why no plan is handed back.
ghost use Rattle.std.specs.Prelude.{◌≡◌};
ghost use Rattle.exports.specs.Statuses.{fault_status};
ghost use Rattle.exports.specs.declared.fault.Fault.TheVariants.{Sheet as OfSheet, Facts as OfFacts};

use facts::FactsFault;
use house::SheetFault;
use refusal::Refusal;

// What stands in the way of a price.
#[derive(Clone, Copy)]
pub enum Fault {
    // a number that is no sheet's
    UnknownSheet,
    // bytes that are no house sheet
    Sheet(SheetFault),
    Facts(FactsFault),
    // the plan asked for is not permitted, or none is
    NotPermitted,
}

impl From<SheetFault> for Fault {
    ghost from_gives = { λ s f. f ≡ OfSheet s };

    fn from(value: SheetFault) -> Fault {
        Fault::Sheet(value)
    }
}

impl From<FactsFault> for Fault {
    ghost from_gives = { λ u f. f ≡ OfFacts u };

    fn from(value: FactsFault) -> Fault {
        Fault::Facts(value)
    }
}

// The number of the refusal that a fault is; 100 for a number that is no sheet's.
impl From<Fault> for u64 {
    ghost from_gives = { λ fault status. status ≡ fault_status fault };

    fn from(fault: Fault) -> u64 {
        match fault {
            Fault::UnknownSheet => 100,
            Fault::Sheet(fault) => Refusal::from(fault).number as u64,
            Fault::Facts(fault) => Refusal::from(fault).number as u64,
            Fault::NotPermitted => 13,
        }
    }
}
