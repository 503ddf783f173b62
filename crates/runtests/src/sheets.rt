// A sheet for tests.
ghost use Rattle.std.specs.Prelude.{◌≡◌, ◌^◌, ◌≤◌, min};
ghost use Rattle.runtests.specs.Sheets.{one_plan};
ghost use Rattle.std.proofs.Common.{rules, arith};

use facts::Facts;
use sheet::Sheet;

// One plan, open to everybody at one price before rounding.
#[derive(Clone, Copy)]
pub struct OnePlan {
    price: u64,
    ghost bounded: { price ≤ 10 ^ 18 },
}

impl OnePlan {
    // The sheet of this price, but of no more than a sheet may ask.
    pub fn new(price: u64) -> OnePlan
        ensures { result.price ≡ min price (10 ^ 18) }
    {
        OnePlan {
            price: price.min(1_000_000_000_000_000_000),
        }
    }
}

impl Sheet for OnePlan {
    ghost tariff = { λ s. one_plan s.price };

    ghost lawful = { first_of (Prim.search rules, Prim.grind (arith, Self.row.coded.inj)) };

    fn count(&self) -> u64 {
        1
    }

    fn permits(&self, code: u64, _facts: &Facts) -> bool {
        code == 0
    }

    fn parts(&self, code: u64, _facts: &Facts) -> (u64, u64) {
        if code == 0 { (self.price, 0) } else { (0, 0) }
    }
}
