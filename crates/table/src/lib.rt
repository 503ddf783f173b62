// The table board: each number has a slot of its own in the memory, which may be rewritten for ever.
#![tactic(auto)]

pub mod table;

pub use table::plan::TablePlan;
pub use table::{SLOT, Table};
