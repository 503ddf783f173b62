// What stands at the desk where a script is played: nothing, a board, or a cabinet over a board.
#![tactic(auto)]

mod asking;
mod calls;
mod making;
mod place;
mod rows;
mod standing;

pub use standing::Bench;
