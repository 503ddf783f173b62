// What a program in C or Rust can call: figures, prices and rows, over numbers, bytes and two structs. No call takes memory, and none asks anything of the values handed in.
#![tactic(auto)]

mod checking;
mod choosing;
mod crossing;
mod fault;
mod figuring;

pub use checking::funderaky_row_check;
pub use choosing::{funderaky_choose, funderaky_price};
pub use crossing::{PeriodFacts, PricedPlan};
pub use figuring::{funderaky_month_ne, funderaky_rating};
