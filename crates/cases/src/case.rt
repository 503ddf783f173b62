// What a case asks, and what it is answered.
use facts::FactsForm;

// A question to the program.
#[derive(Clone, Copy)]
pub enum Question {
    // the N_E of a month with this wage index and this materials index
    Month(u64, u64),
    // the cheapest plan of the decree sheet
    OnDecree(FactsForm),
    // the cheapest plan of the protected layer over the decree sheet
    OnProtected(FactsForm),
    // the kWh that a register counts from one index to another
    Register(u64, u64),
}

// The answer to a question.
#[derive(Clone, Copy)]
pub enum Answer {
    // an N_E, in ten-thousandths
    NonFuel(u32),
    // a plan's code and its price in cents
    Plan(u64, u64),
    Kwh(u32),
}

// A case: its number, and what it asks.
pub type Case = (u8, Question);
