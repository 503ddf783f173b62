// The journal board: entries written one behind the other, the latest for a number deciding.
#![tactic(auto)]

pub mod entries;
pub mod journal;

pub use entries::ENTRY;
pub use journal::Journal;
pub use journal::plan::JournalPlan;
