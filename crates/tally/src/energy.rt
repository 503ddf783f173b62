// kWh by day and by night.
ghost use Rattle.std.specs.Prelude.{◌≡◌, ◌<◌, ◌≤◌, map};
ghost use Rattle.std.specs.List.{range_with_len};
ghost use Rattle.tally.specs.Energies.{rolled, counted_by, counted_from, counted_in, energy_in, billed_in, joined};

use account::Hours;
use cabinet::Bill;
use std::array;

// The number of indices that a register can show.
const INDICES: u64 = 1_000_000;

// kWh of all circuits.
#[derive(Clone, Copy, PartialEq, Eq, Default, Debug)]
pub struct Energy {
    pub day: u64,
    pub night: u64,
}

// The kWh that a bill is for.
impl From<Bill> for Energy {
    ghost from_gives = { λ bill energy. energy ≡ billed_in bill };

    fn from(bill: Bill) -> Energy {
        Energy {
            day: bill.day(),
            night: bill.night(),
        }
    }
}

impl Energy {
    // The kWh of these hours.
    pub fn of(self, hours: Hours) -> u64
        ensures { result ≡ energy_in hours self }
    {
        match hours {
            Hours::Day => self.day,
            Hours::Night => self.night,
        }
    }

    // Both together, as far as 64 bits go; no `+`, which would say that the sum always fits.
    pub fn plus(self, more: Energy) -> Energy
        ensures { result ≡ joined self more }
    {
        Energy {
            day: self.day.saturating_add(more.day),
            night: self.night.saturating_add(more.night),
        }
    }
}

// What a register counted from one index to another.
fn rolled_over(old: u64, new: u64) -> u64
    ensures value { result ≡ rolled old new }
    ensures bound { result < 1000000 }
{
    (new % INDICES + INDICES - old % INDICES) % INDICES
}

// What every other register counted, from this one on.
fn counted_on(old: &[u64; 12], new: &[u64; 12], first: usize) -> [u64; 6]
    requires { first ≤ 1 }
    ensures { result ≡ map (counted_by old.now new.now first) (range_with_len 0 6) }
{
    array::from_fn(|circuit| rolled_over(old[2 * circuit + first], new[2 * circuit + first]))
}

// The same of all of them together.
fn counted_from(old: &[u64; 12], new: &[u64; 12], first: usize) -> u64
    requires { first ≤ 1 }
    ensures { result ≡ counted_from old.now new.now first }
{
    counted_on(old, new, first).iter().sum()
}

// What twelve registers counted between two readings, per circuit by day then by night.
pub fn counted(old: &[u64; 12], new: &[u64; 12]) -> Energy
    ensures { result ≡ counted_in old.now new.now }
{
    Energy {
        day: counted_from(old, new, 0),
        night: counted_from(old, new, 1),
    }
}
