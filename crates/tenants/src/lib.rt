// The tenants of an estate, drawn by lot: who moves in and out, what they use and how they pay, and the calls that follow from it.
#![tactic(auto)]

mod household;
mod meters;
mod payments;
mod rounds;
mod slips;
mod visit;

pub use household::Household;
pub use rounds::Round;
pub use visit::Visit;
