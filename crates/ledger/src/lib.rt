// The ledger: accounts as rows of any board, and the calls on one account.
#![tactic(auto)]

mod due;
mod fault;
mod ledger;

pub use due::Due;
pub use fault::LedgerFault;
pub use ledger::Ledger;
