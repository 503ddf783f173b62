// The numbers of bases and places in a code.
ghost use Rattle.std.specs.Prelude.{◌≡◌};
ghost use Rattle.common.specs.Numbering.{Numbered, found_at};
ghost use Rattle.decreeplan.specs.Codes.{base_number, base_at, place_number, place_at};

use crate::plan::{Base, Place};
use common::UnknownNumber;

// The base of a number, 0 to 5.
impl TryFrom<u64> for Base {
    type Error = UnknownNumber;

    ghost try_from_gives = { λ n r. (r ≡ found_at n (base_at n)) × Numbered base_number n (base_at n) };

    fn try_from(number: u64) -> Result<Base, UnknownNumber> {
        match number {
            0 => Ok(Base::Normal),
            1 => Ok(Base::TwoRate),
            2 => Ok(Base::Normal30),
            3 => Ok(Base::TwoRate30),
            4 => Ok(Base::Extended),
            5 => Ok(Base::Extended30),
            _ => Err(UnknownNumber { number }),
        }
    }
}

impl From<Base> for u8 {
    ghost from_gives = { λ base n. n ≡ base_number base };

    fn from(base: Base) -> u8 {
        base as u8
    }
}

// The place of a number, 0 to 2.
impl TryFrom<u64> for Place {
    type Error = UnknownNumber;

    ghost try_from_gives = { λ n r. (r ≡ found_at n (place_at n)) × Numbered place_number n (place_at n) };

    fn try_from(number: u64) -> Result<Place, UnknownNumber> {
        match number {
            0 => Ok(Place::Main),
            1 => Ok(Place::ExclusiveNight),
            2 => Ok(Place::PeakShed),
            _ => Err(UnknownNumber { number }),
        }
    }
}

impl From<Place> for u8 {
    ghost from_gives = { λ place n. n ≡ place_number place };

    fn from(place: Place) -> u8 {
        place as u8
    }
}
