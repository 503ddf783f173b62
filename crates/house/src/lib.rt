// The house sheet: up to eight plans of the estate's own, read from bytes.
#![tactic(auto)]

mod field;
mod house;
mod line;

pub use house::House;
pub use house::writing::line_bytes;
pub use line::{Line, SheetFault};
