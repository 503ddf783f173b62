// Answers that are read back from their texts.
#![tactic(auto)]

mod form;
mod numbered;
mod reading;

pub use reading::read_answer;
