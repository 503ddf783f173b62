// A sample dwelling and its year.
use facts::{FactsForm, ProfileForm};
use figures::{Month, NcSum, NeSum};

// A month's wage index s, materials index Mx and fuel figure N_C.
type Indices = (u64, u64, u64);

// Twelve months of slowly rising indices.
const MONTHS: [Indices; 12] = [
    (888_131, 141_151, 10_890),
    (888_131, 141_320, 10_912),
    (889_774, 141_498, 10_905),
    (889_774, 141_655, 10_877),
    (889_774, 141_803, 10_861),
    (891_206, 141_990, 10_884),
    (891_206, 142_144, 10_931),
    (891_206, 142_310, 10_958),
    (892_572, 142_467, 10_970),
    (892_572, 142_615, 10_963),
    (892_572, 142_788, 10_989),
    (894_015, 142_940, 11_004),
];

// The sums of N_E and N_C over the twelve months.
fn sums() -> Option<(u64, u64)> {
    let mut ne = 0u64;
    let mut nc = 0u64;
    for (s, mx, fuel) in MONTHS {
        let month = Month::from_indices(s, mx, fuel)?;
        ne = ne.saturating_add(month.ne() as u64);
        nc = nc.saturating_add(month.nc() as u64);
    }
    Some((ne, nc))
}

// A house with a night-storage boiler on circuit 1 and a heat pump that may be cut off at peak hours on circuit 2.
pub fn year() -> Option<FactsForm> {
    let (ne, nc) = sums()?;
    Some(FactsForm {
        profile: ProfileForm {
            class: 0,
            marks: 1 + 2,
            power: 125,
            exempt: 0,
            kinds: [1, 2, 3, 0, 0, 0],
        },
        day: [2_350, 0, 1_480, 0, 0, 0],
        night: [1_120, 2_900, 2_260, 0, 0, 0],
        months: 12,
        ne: NeSum::new(ne),
        nc: NcSum::new(nc),
    })
}
