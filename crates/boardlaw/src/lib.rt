// What every board keeps over any list of stores and clearings, from its making on.
#![tactic(auto)]

pub mod change;
pub mod history;

pub use change::Change;
pub use history::{NoRoom, apply, law_stands, make_change};
