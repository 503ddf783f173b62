// The lines that make a board, look at its rows, use it as an earlier user did, or call the cabinet over it, with their answers.
#![tactic(auto)]

mod calling;
mod making;
mod rows;

pub use calling::call_answer;
pub use making::board_answer;
pub use rows::{clear_answer, row_answer, store_answer};
