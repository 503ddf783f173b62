// Numbers that look drawn by lot, and are the same for the same seed.
#![tactic(auto)]

mod generator;

pub use generator::Chance;
