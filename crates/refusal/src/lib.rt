// What every refusal says: its number, the layer that gives it, and a place.
// Each kind of fault becomes its refusal by From.
#![tactic(auto)]

ghost use Rattle.std.specs.Prelude.{Some};
ghost use Rattle.refusal.specs.Refusals.{layer_name, refusal_parts};

use std::fmt;

// The layer that a refusal is counted to. It is a label for the reader and need not be the crate that finds the fault.
#[derive(Clone, Copy, PartialEq, Eq, Debug)]
pub enum Layer {
    Board,
    Ledger,
    Cabinet,
    Sheet,
    Rating,
}

// The word by which a refusal names its layer.
impl fmt::Display for Layer {
    ghost output = { λ layer. Some (layer_name layer) };

    fn fmt<W: fmt::Write>(&self, f: &mut fmt::Formatter<W>) -> fmt::Result {
        f.write_str(match self {
            Layer::Board => "board",
            Layer::Ledger => "ledger",
            Layer::Cabinet => "cabinet",
            Layer::Sheet => "sheet",
            Layer::Rating => "rating",
        })
    }
}

// A numbered refusal. The place is the account, the month due, the ampere, the memory's length or a byte's position, by the number.
#[derive(Clone, Copy, PartialEq, Eq, Debug)]
pub struct Refusal {
    pub number: u8,
    pub layer: Layer,
    pub place: u64,
}

// `NUMBER LAYER PLACE`
impl fmt::Display for Refusal {
    ghost output = { λ refusal. Some (refusal_parts refusal) };

    fn fmt<W: fmt::Write>(&self, f: &mut fmt::Formatter<W>) -> fmt::Result {
        let Refusal {
            number,
            layer,
            place,
        } = self;
        write!(f, "{number} {layer} {place}")
    }
}
