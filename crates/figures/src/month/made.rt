// Making a month's figures from the published indices.
ghost use Rattle.std.specs.Prelude.{◌≡◌, ◌*◌, ◌≤◌};
ghost use Rattle.std.specs.Option.{option_map};
ghost use Rattle.figures.specs.Rounding.{rounded};
ghost use Rattle.figures.specs.Months.{month_of};
ghost use Rattle.figures.specs.Figures.{month_figures};

use super::Month;
use crate::rounding::round_half_down;

// The largest figure that a month may have.
const MOST: u64 = 99_999;
// The largest wage or materials index that is taken.
const MOST_INDEX: u64 = 9_999_999;

// How a published index counts towards N_E: over its base, and some thousandths of that.
#[derive(Clone, Copy)]
struct Weight {
    base: u64,
    thousandths: u64,
}

// The wage index has the base 8.88131.
const WAGES: Weight = Weight {
    base: 888_131,
    thousandths: 390,
};
// The materials index has the base 141.151.
const MATERIALS: Weight = Weight {
    base: 141_151,
    thousandths: 185,
};

impl Weight {
    // The share of an index in N_E, in ten-thousandths.
    fn term(self, index: u64) -> u64
        requires index { index ≤ 9999999 }
        requires part { self.thousandths ≤ 1000 }
        ensures { result ≡ rounded (self.thousandths * rounded (10000 * index) self.base) 1000 }
    {
        let ratio = round_half_down(10_000 * index, self.base);
        round_half_down(self.thousandths * ratio, 1_000)
    }
}

impl Month {
    // The month's figures from the wage index s (in 0.00001), the materials index Mx (in 0.001) and N_C (in ten-thousandths); none where one of them, or the N_E worked out, is outside its limits.
    pub fn from_indices(s: u64, mx: u64, nc: u64) -> Option<Month>
        ensures { option_map month_figures result ≡ month_of s mx nc }
    {
        let indices = 1..=MOST_INDEX;
        if !indices.contains(&s) || !indices.contains(&mx) || nc > MOST {
            return None;
        }
        let ne = 4_250 + WAGES.term(s) + MATERIALS.term(mx);
        if ne > MOST {
            return None;
        }
        Some(Month {
            ne: ne as u32,
            nc: nc as u32,
        })
    }
}
