// Profiles and facts as they are handed in: any numbers.
ghost use Rattle.std.specs.Prelude.{◌≡◌};
ghost use Rattle.facts.specs.declared.form.FactsFault.TheVariants.{OutsideLimits as FactsOutside};
ghost use Rattle.facts.specs.Refusals.{facts_refusal};

use common::UnknownNumber;
use figures::{NcSum, NeSum};
use refusal::{Layer, Refusal};

// A profile as numbers: class, marks, power and exempt power in tenths of a kVA, and six kinds.
#[derive(Clone, Copy)]
pub struct ProfileForm {
    pub class: u64,
    pub marks: u64,
    pub power: u64,
    pub exempt: u64,
    pub kinds: [u64; 6],
}

// Facts as numbers: a profile, the kWh of each circuit by day and by night, the months of the period and their two sums.
#[derive(Clone, Copy)]
pub struct FactsForm {
    pub profile: ProfileForm,
    pub day: [u64; 6],
    pub night: [u64; 6],
    pub months: u64,
    pub ne: NeSum,
    pub nc: NcSum,
}

// A profile or facts outside their limits.
#[derive(Clone, Copy, PartialEq, Eq, Debug)]
pub enum FactsFault {
    OutsideLimits,
}

// A number that is no class, no marks or no kind is outside the limits.
impl From<UnknownNumber> for FactsFault {
    ghost from_gives = { λ _ fault. fault ≡ FactsOutside };

    fn from(_number: UnknownNumber) -> FactsFault {
        FactsFault::OutsideLimits
    }
}

// The refusal that a fault is: 5, place 0.
impl From<FactsFault> for Refusal {
    ghost from_gives = { λ fault refusal. refusal ≡ facts_refusal fault };

    fn from(fault: FactsFault) -> Refusal {
        match fault {
            FactsFault::OutsideLimits => Refusal {
                number: 5,
                layer: Layer::Ledger,
                place: 0,
            },
        }
    }
}
