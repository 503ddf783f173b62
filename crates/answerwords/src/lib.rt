// What the words of an answer stand for.
#![tactic(auto)]

mod numbers;
mod word;

pub use numbers::{exact_numbers, is_end, leading_numbers};
pub use word::{layer_of, row_of, signed_number, state_of};
