// What the names and numbers on a script's lines stand for.
#![tactic(auto)]

mod forms;
mod verb;

pub use forms::{facts_in, indices_in, opening_in};
pub use script::{SheetName, sheet_of};
pub use verb::{CallVerb, Verb, verb_of};
