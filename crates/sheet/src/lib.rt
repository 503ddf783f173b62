// Price sheets: what they answer, and which of their plans is the cheapest.
#![tactic(auto)]

mod choosing;
mod plan;
mod sheet;

pub use choosing::{choose, price_of};
pub use plan::Plan;
pub use sheet::Sheet;
