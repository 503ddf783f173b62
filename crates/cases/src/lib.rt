// The known cases of the rules: twelve questions, each put to the calls that answer it, and their answers as lines of text.
#![tactic(auto)]

mod answering;
mod case;
mod lines;
mod table;

pub use lines::twelve_lines;
