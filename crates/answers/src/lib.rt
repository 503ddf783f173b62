// What the lines of a script are answered, and how an answer is written.
#![tactic(auto)]

mod answer;
mod numbers;
mod price;
mod shown;

pub use answer::{Answer, BillFigures};
pub use numbers::{Hex, Spaced};
pub use price::PriceAnswer;
