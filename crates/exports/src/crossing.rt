// The structs that a caller hands in and gets back.
ghost use Rattle.std.specs.Prelude.{◌≡◌};
ghost use Rattle.exports.specs.Crossing.{facts_form, priced_plan};

use facts::{FactsForm, ProfileForm};
use figures::{NcSum, NeSum};
use sheet::Plan;

// The facts of a period as numbers, any of them: a profile, the kWh of six circuits by day and by night, the months and the sums of N_E and of N_C over them.
#[repr(C)]
#[derive(Clone, Copy)]
pub struct PeriodFacts {
    pub customer_class: u64,
    pub marks: u64,
    pub power: u64,
    pub exempt: u64,
    pub kinds: [u64; 6],
    pub day: [u64; 6],
    pub night: [u64; 6],
    pub months: u64,
    pub ne_sum: u64,
    pub nc_sum: u64,
}

// A plan with its price: the two parts before rounding, and the cents.
#[repr(C)]
#[derive(Clone, Copy)]
pub struct PricedPlan {
    pub code: u64,
    pub fixed: u64,
    pub energy: u64,
    pub cents: u64,
}

// The same numbers as they are handed to the pricing.
impl From<&PeriodFacts> for FactsForm {
    ghost from_gives = { λ facts form. form ≡ facts_form facts.now };

    fn from(facts: &PeriodFacts) -> FactsForm {
        let profile = ProfileForm {
            class: facts.customer_class,
            marks: facts.marks,
            power: facts.power,
            exempt: facts.exempt,
            kinds: facts.kinds,
        };
        FactsForm {
            profile,
            day: facts.day,
            night: facts.night,
            months: facts.months,
            ne: NeSum::new(facts.ne_sum),
            nc: NcSum::new(facts.nc_sum),
        }
    }
}

// A plan as it is handed back.
impl From<Plan> for PricedPlan {
    ghost from_gives = { λ plan priced. priced ≡ priced_plan plan };

    fn from(plan: Plan) -> PricedPlan {
        let (fixed, energy) = plan.parts;
        PricedPlan {
            code: plan.code,
            fixed,
            energy,
            cents: plan.cents,
        }
    }
}
