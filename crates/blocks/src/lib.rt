// Memory as blocks of one width, one behind the other: what the boards keep their rows in.
#![tactic(auto)]

pub mod mark;
pub mod memory;

pub use mark::{is_row, mark_of};
pub use memory::{Blocks, move_block, read_block, write_block};
