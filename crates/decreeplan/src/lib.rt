// The plans of the decree sheet, and the codes that they go by.
#![tactic(auto)]

mod codes;
mod numbers;
mod plan;

pub use codes::places_of;
pub use plan::{Base, Place};
