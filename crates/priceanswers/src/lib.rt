// The lines that ask for a rating or a price, or bring a house sheet, with their answers.
#![tactic(auto)]

mod asked;
mod reading;

pub use asked::{choose_answer, price_answer, rating_answer};
pub use reading::house_answer;
