// The power that a circuit breaker makes available, by network and rated current.
#![tactic(auto)]

ghost use Rattle.std.specs.Prelude.{◌≡◌};
ghost use Rattle.common.specs.Numbering.{Numbered, found_at};
ghost use Rattle.rating.specs.Ratings.{network_number, network_at, rating_of, rating_refusal};

use common::UnknownNumber;
use refusal::{Layer, Refusal};

// The networks that a dwelling may be connected to.
#[derive(Clone, Copy)]
pub enum Network {
    // two wires, 230 V
    TwoWire,
    // three wires, 230 V
    ThreeWire,
    // three wires and neutral, 400 V
    ThreeWireNeutral,
}

// A network or a rated current outside the table; it holds the ampere asked for.
#[derive(Clone, Copy)]
pub enum RatingFault {
    OutsideTable(u64),
}

// The network of a number, 1 to 3.
impl TryFrom<u64> for Network {
    type Error = UnknownNumber;

    ghost try_from_gives = { λ number r. (r ≡ found_at number (network_at number)) × Numbered network_number number (network_at number) };

    fn try_from(number: u64) -> Result<Network, UnknownNumber> {
        match number {
            1 => Ok(Network::TwoWire),
            2 => Ok(Network::ThreeWire),
            3 => Ok(Network::ThreeWireNeutral),
            _ => Err(UnknownNumber { number }),
        }
    }
}

// The refusal that a fault is: 21, and the ampere asked for.
impl From<RatingFault> for Refusal {
    ghost from_gives = { λ fault refusal. refusal ≡ rating_refusal fault };

    fn from(fault: RatingFault) -> Refusal {
        match fault {
            RatingFault::OutsideTable(ampere) => Refusal {
                number: 21,
                layer: Layer::Rating,
                place: ampere,
            },
        }
    }
}

// Tenths of a kVA, by network and then by ampere from 4 to 18.
const RATINGS: [[u16; 15]; 3] = [
    [9, 12, 14, 16, 18, 21, 23, 25, 28, 30, 32, 35, 37, 39, 41],
    [16, 20, 24, 28, 32, 36, 40, 44, 48, 52, 56, 60, 64, 68, 72],
    [
        28, 35, 42, 48, 55, 62, 69, 76, 83, 90, 97, 104, 111, 118, 125,
    ],
];

// The tenths of a kVA that a breaker of this rated current makes available on a network.
pub fn rating(network: u64, ampere: u64) -> Result<u16, RatingFault>
    ensures { result ≡ rating_of network ampere }
{
    let network = Network::try_from(network).map_err(|_| RatingFault::OutsideTable(ampere))?;
    if !(4..=18).contains(&ampere) {
        return Err(RatingFault::OutsideTable(ampere));
    }
    Ok(RATINGS[network as usize][ampere as usize - 4])
}
