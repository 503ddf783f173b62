// Sums kept beside a cabinet, from what it was asked and what it answered, to hold against what it shows.
#![tactic(auto)]

mod energy;
mod showing;
mod tally;
mod year;

pub use energy::{Energy, counted};
pub use showing::is_shown;
pub use tally::{Tally, after};
pub use year::YearSums;
