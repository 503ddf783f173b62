// What a year of an estate came to.
use tally::YearSums;

// The accounts open at its end and what they owe, the sums of its calls, and how often the journal was cleared out.
#[derive(Clone, Copy)]
pub struct Year {
    pub occupied: u64,
    pub owing: i128,
    pub sums: YearSums,
    pub clearings: u64,
}

impl Year {
    // This span of time and the one that follows it, as one.
    pub fn then(self, next: Year) -> Year {
        Year {
            occupied: next.occupied,
            owing: next.owing,
            sums: self.sums.plus(next.sums),
            clearings: self.clearings.saturating_add(next.clearings),
        }
    }
}
