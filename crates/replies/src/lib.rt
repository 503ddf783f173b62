// The answers to a cabinet's calls as the answers to a script's lines.
#![tactic(auto)]

mod numbers;
mod reply;

pub use numbers::bill_figures;
pub use reply::answer_of;
