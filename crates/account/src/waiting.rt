// The kWh that wait to be settled, by circuit and together.
ghost use Rattle.std.specs.Prelude.{◌≡◌};
ghost use Rattle.facts.specs.Limits.{KwhLimits};
ghost use Rattle.account.specs.Tenancy.{tenancy_of};
ghost use Rattle.account.specs.Waiting.{waiting_on, waiting_in_all};

use crate::account::Account;
use crate::hours::Hours;
use std::array;

impl Account {
    // The kWh waiting on each circuit, as the facts of the period have them.
    pub fn waiting_on(&self, hours: Hours) -> [u32; 6]
        ensures value { result ≡ waiting_on hours (tenancy_of self.now) }
        ensures limits { KwhLimits 6 self.now.profile.kinds result }
    {
        array::from_fn(|circuit| self.waiting[hours.register(circuit)])
    }

    // The kWh waiting on all circuits together, as the bill has them.
    pub fn waiting_in_all(&self, hours: Hours) -> u32
        ensures { result ≡ waiting_in_all hours (tenancy_of self.now) }
    {
        self.waiting_on(hours).iter().sum()
    }
}
