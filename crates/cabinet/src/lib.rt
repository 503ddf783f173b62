// The billing cabinet: the months posted and the accounts on a board, and the calls on them.
#![tactic(auto)]

mod bill;
mod cabinet;
mod fault;

pub use bill::Bill;
pub use cabinet::Cabinet;
pub use fault::CabinetFault;
