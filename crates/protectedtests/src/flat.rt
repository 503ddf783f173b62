// A sheet for tests: so many codes, all at one price.
ghost use Rattle.std.specs.Prelude.{◌≡◌, ◌≤◌, min};
ghost use Rattle.protectedtests.specs.Flats.{flat_tariff};
ghost use Rattle.std.proofs.Common.{rules, arith};

use facts::Facts;
use sheet::Sheet;

// So many codes, each open to everybody at a fixed part of 2,000,000,000,000.
#[derive(Clone, Copy)]
pub struct Flat {
    count: u64,
    ghost few: { count ≤ 65000 },
}

impl Flat {
    // A sheet of so many codes, but of no more than 65,000.
    pub fn new(count: u64) -> Flat
        ensures { result.count ≡ min count 65000 }
    {
        Flat {
            count: count.min(65_000),
        }
    }
}

impl Sheet for Flat {
    ghost tariff = { λ s. flat_tariff s.count };

    ghost lawful = { first_of (Prim.search rules, Prim.grind (arith, Self.row.coded.inj)) };

    fn count(&self) -> u64 {
        self.count
    }

    fn permits(&self, code: u64, _facts: &Facts) -> bool {
        code < self.count
    }

    fn parts(&self, code: u64, _facts: &Facts) -> (u64, u64) {
        if code < self.count {
            (2_000_000_000_000, 0)
        } else {
            (0, 0)
        }
    }
}
