// The facts of a period.
ghost use Rattle.facts.specs.Limits.{Period, KwhLimits};

use crate::profile::Profile;
use figures::{NcSum, NeSum};

// What one period is priced on: the dwelling's profile, each circuit's kWh by day and by night, the number of months, and the sums of N_E and N_C over them.
#[derive(Clone, Copy)]
pub struct Facts {
    pub profile: Profile,
    pub day: [u32; 6],
    pub night: [u32; 6],
    pub months: u8,
    pub ne: NeSum,
    pub nc: NcSum,
    ghost period: { Period months ne.0 nc.0 },
    ghost by_day: { KwhLimits 6 profile.kinds day },
    ghost by_night: { KwhLimits 6 profile.kinds night },
}
