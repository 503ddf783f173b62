// The two boards as one type.
#![tactic(auto)]

mod any;
mod making;

pub use any::AnyBoard;
pub use making::NotMade;
