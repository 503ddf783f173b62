// What the crates above share: the error of a number that stands for nothing, and definitions and lemmas.
#![tactic(auto)]

// A number that stands for none of an enum's cases, as 7 for a class.
#[derive(Clone, Copy, PartialEq, Eq, Debug)]
pub struct UnknownNumber {
    pub number: u64,
}
