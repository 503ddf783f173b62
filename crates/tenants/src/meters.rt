// What the registers of a dwelling show.
ghost use Rattle.std.specs.Prelude.{◌≡◌, ◌<◌, ◌≤◌};
ghost use Rattle.tenants.specs.Meters.{used_in, start_at, index_at, start_indices, indices_after};

use chance::Chance;
use std::array;

// The number of indices that a register can show.
const INDICES: u64 = 1_000_000;

// The kWh of some months at so many hundredths of the usual use.
fn used(monthly: u16, months: u64, hundredths: u64) -> u64
    requires { (months ≤ 3) × (hundredths ≤ 125) }
    ensures value { result ≡ used_in monthly months hundredths }
    ensures bound { result < 1000000 }
{
    monthly as u64 * (months * hundredths) / 100
}

// The index at which a register starts: near its end, and 0 where the circuit is unused.
fn start_at(kinds: &[u64; 6], lot: Chance, register: usize) -> u64
    requires { register < 12 }
    ensures { result ≡ start_at kinds.now lot.seed register }
{
    if kinds[register / 2] == 0 {
        return 0;
    }
    INDICES - 1 - lot.below(32 + register as u64, 40_000)
}

// The indices at which the registers start.
pub fn start_indices(kinds: &[u64; 6], lot: Chance) -> [u64; 12]
    ensures { result ≡ start_indices kinds.now lot.seed }
{
    array::from_fn(|register| start_at(kinds, lot, register))
}

// The index of a register after some months, in which three quarters to five quarters of the usual kWh are used.
fn index_at(old: u64, monthly: u16, months: u64, lot: Chance, register: usize) -> u64
    requires { (months ≤ 3) × (register < 12) }
    ensures { result ≡ index_at old monthly months lot.seed register }
{
    let hundredths = 75 + lot.below(16 + register as u64, 51);
    (old % INDICES + used(monthly, months, hundredths)) % INDICES
}

// The indices after some months.
pub fn indices_after(old: &[u64; 12], monthly: &[u16; 12], months: u64, lot: Chance) -> [u64; 12]
    requires { months ≤ 3 }
    ensures { result ≡ indices_after old.now monthly.now months lot.seed }
{
    array::from_fn(|i| index_at(old[i], monthly[i], months, lot, i))
}
