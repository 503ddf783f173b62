// The months posted to a cabinet: their price-revision figures, and the sums over a period.
#![tactic(auto)]

mod fault;
mod kept;

pub use fault::PostFault;
pub use kept::Months;
