// Rounding, the price-revision figures of a month, and their sums over a period.
#![tactic(auto)]

mod month;
mod rounding;
mod sums;

pub use month::Month;
pub use rounding::round_half_down;
pub use sums::{NcSum, NeSum};
