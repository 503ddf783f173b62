// The indices that are posted each month.
ghost use Rattle.std.specs.Prelude.{◌≡◌, ◌≤◌};
ghost use Rattle.market.specs.Indices.{wandered, first_indices, next_indices};

use chance::Chance;

// A month's wage index s, materials index Mx and fuel figure N_C.
#[derive(Clone, Copy)]
pub struct MonthIndices {
    pub s: u64,
    pub mx: u64,
    pub nc: u64,
}

// A value after a step up of this size and one down of that, within its bounds.
fn wander(value: u64, up: u64, down: u64, low: u64, high: u64) -> u64
    requires { low ≤ high }
    ensures { result ≡ wandered value up down low high }
{
    value
        .saturating_add(up)
        .saturating_sub(down)
        .clamp(low, high)
}

impl MonthIndices {
    // The indices at which all figures are one.
    pub fn first() -> MonthIndices
        ensures { result ≡ first_indices }
    {
        MonthIndices {
            s: 888_131,
            mx: 141_151,
            nc: 10_000,
        }
    }

    // The indices of the next month: wages and materials rise a little on the whole, fuel goes up and down.
    pub fn next(self, lot: Chance) -> MonthIndices
        ensures { result ≡ next_indices self lot.seed }
    {
        MonthIndices {
            s: wander(self.s, lot.below(0, 6_001), 2_000, 800_000, 2_000_000),
            mx: wander(self.mx, lot.below(1, 1_201), 500, 100_000, 400_000),
            nc: wander(self.nc, lot.below(2, 801), 400, 5_000, 20_000),
        }
    }
}
