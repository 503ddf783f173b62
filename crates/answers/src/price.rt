// What a pricing line can be answered.
ghost use Rattle.std.specs.Prelude.{◌≡◌, Some};
ghost use Rattle.answers.specs.Answers.{answer_text};
ghost use Rattle.answers.specs.Prices.{wide};

use crate::answer::Answer;
use refusal::Refusal;
use std::fmt;

// The answer to a pricing line.
// An enum of its own, since an answer among all has room for a whole account and a whole row, and takes longer to move.
#[derive(Clone, Copy)]
pub enum PriceAnswer {
    // a rating in tenths of a kVA
    Tenths(u16),
    // the house sheet was read and has so many lines
    Lines(u64),
    // a permitted plan's price: fixed part, energy part, cents
    Parts(u64, u64, u64),
    NotPermitted,
    // the cheapest plan: code, fixed part, energy part, cents
    Plan(u64, u64, u64, u64),
    // the sheet permits no plan
    NoPlan,
    Refused(Refusal),
    Unreadable,
    NoMemory,
}

// The same answer among all answers.
impl From<PriceAnswer> for Answer {
    ghost from_gives = { λ narrow answer. answer ≡ wide narrow };

    fn from(narrow: PriceAnswer) -> Answer {
        match narrow {
            PriceAnswer::Tenths(tenths) => Answer::Tenths(tenths),
            PriceAnswer::Lines(lines) => Answer::Lines(lines),
            PriceAnswer::Parts(fixed, energy, cents) => Answer::Parts(fixed, energy, cents),
            PriceAnswer::NotPermitted => Answer::NotPermitted,
            PriceAnswer::Plan(code, fixed, energy, cents) => {
                Answer::Plan(code, fixed, energy, cents)
            }
            PriceAnswer::NoPlan => Answer::NoPlan,
            PriceAnswer::Refused(refusal) => Answer::Refused(refusal),
            PriceAnswer::Unreadable => Answer::Unreadable,
            PriceAnswer::NoMemory => Answer::NoMemory,
        }
    }
}

// Written as the same answer among all answers.
impl fmt::Display for PriceAnswer {
    ghost output = { λ a. Some (answer_text (wide a)) };

    fn fmt<W: fmt::Write>(&self, f: &mut fmt::Formatter<W>) -> fmt::Result {
        match *self {
            PriceAnswer::Tenths(tenths) => write!(f, "tenths {tenths}"),
            PriceAnswer::Lines(lines) => write!(f, "lines {lines}"),
            PriceAnswer::Parts(fixed, energy, cents) => write!(f, "parts {fixed} {energy} {cents}"),
            PriceAnswer::NotPermitted => f.write_str("not-permitted"),
            PriceAnswer::Plan(code, fixed, energy, cents) => write!(
                f,
                "plan {code} {fixed} {energy} {cents}"
            ),
            PriceAnswer::NoPlan => f.write_str("none"),
            PriceAnswer::Refused(refusal) => write!(f, "refused {refusal}"),
            PriceAnswer::Unreadable => f.write_str("unreadable"),
            PriceAnswer::NoMemory => f.write_str("no-memory"),
        }
    }
}
