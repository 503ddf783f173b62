// The words and numbers of a line of text.
#![tactic(auto)]

mod digits;
mod gather;
mod hex;
mod list;
mod word;

pub use digits::number;
pub use gather::all_numbers;
pub use hex::{hex_byte, is_hex, unhex};
pub use list::Numbers;
pub use word::{is_word, split_word};
