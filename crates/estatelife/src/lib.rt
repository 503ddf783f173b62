// The life of an estate: the rounds of each month are made on two boards side by side, and what is answered is held against sums kept from the calls.
#![tactic(auto)]

mod estate;
mod fault;
mod office;
mod year;

pub use estate::Estate;
pub use fault::EstateFault;
pub use office::Differences;
pub use year::Year;
