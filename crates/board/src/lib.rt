// What a controller board is: rows of 128 bytes under numbers below a capacity, of which at most a limit stand.
// The boards themselves are crates of their own, each an `impl` of `Board`.
#![tactic(auto)]

pub mod calls;
pub mod fault;
pub mod interface;

pub use calls::{MOST_NUMBERS, copy_row, inside};
pub use fault::BoardFault;
pub use interface::Board;
