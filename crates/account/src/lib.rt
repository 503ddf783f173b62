// A dwelling's account: its state, registers and balance, and how each event moves it.
#![tactic(auto)]

mod account;
mod balances;
mod billing;
mod event;
mod fault;
mod figure;
mod form;
mod hours;
mod making;
mod opening;
mod reading;
mod registers;
mod state;
mod steps;
mod waiting;

pub use account::Account;
pub use event::{Event, EventKind, OpeningForm};
pub use fault::AccountFault;
pub use form::AccountForm;
pub use hours::Hours;
pub use state::State;
pub use steps::{standing, step};
