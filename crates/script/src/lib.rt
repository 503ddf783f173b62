// The names of the price sheets, as a replay script says them.
#![tactic(auto)]

mod line;
mod named;

pub use line::{SheetName, sheet_of};
pub use named::{Named, first_named};
