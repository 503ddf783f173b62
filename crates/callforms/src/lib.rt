// The boards and calls that a script's lines ask for.
#![tactic(auto)]

mod calling;
mod forms;
mod making;

pub use calling::{account_in, call_in};
pub use forms::BoardForm;
pub use making::board_in;
