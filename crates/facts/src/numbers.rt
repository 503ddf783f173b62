// The numbers by which classes, marks and kinds are handed in and kept.
ghost use Rattle.std.specs.Prelude.{◌≡◌};
ghost use Rattle.common.specs.Numbering.{Numbered, found_at};
ghost use Rattle.facts.specs.Numbers.{class_number, class_at, kind_number, kind_at, marks_number, marks_at};

use crate::kind::{Class, Kind, Marks};
use common::UnknownNumber;

// The class of a number, 0 or 1.
impl TryFrom<u64> for Class {
    type Error = UnknownNumber;

    ghost try_from_gives = { λ n r. (r ≡ found_at n (class_at n)) × Numbered class_number n (class_at n) };

    fn try_from(number: u64) -> Result<Class, UnknownNumber> {
        match number {
            0 => Ok(Class::Residential),
            1 => Ok(Class::Professional),
            _ => Err(UnknownNumber { number }),
        }
    }
}

impl From<Class> for u8 {
    ghost from_gives = { λ class n. n ≡ class_number class };

    fn from(class: Class) -> u8 {
        match class {
            Class::Residential => 0,
            Class::Professional => 1,
        }
    }
}

// The kind of a number, 0 to 3.
impl TryFrom<u64> for Kind {
    type Error = UnknownNumber;

    ghost try_from_gives = { λ n r. (r ≡ found_at n (kind_at n)) × Numbered kind_number n (kind_at n) };

    fn try_from(number: u64) -> Result<Kind, UnknownNumber> {
        match number {
            0 => Ok(Kind::Unused),
            1 => Ok(Kind::General),
            2 => Ok(Kind::NightReserved),
            3 => Ok(Kind::Interruptible),
            _ => Err(UnknownNumber { number }),
        }
    }
}

impl From<Kind> for u8 {
    ghost from_gives = { λ kind n. n ≡ kind_number kind };

    fn from(kind: Kind) -> u8 {
        match kind {
            Kind::Unused => 0,
            Kind::General => 1,
            Kind::NightReserved => 2,
            Kind::Interruptible => 3,
        }
    }
}

// The marks of a number, 0 to 7: bit 0 two-rate, bit 1 extension, bit 2 protected.
impl TryFrom<u64> for Marks {
    type Error = UnknownNumber;

    ghost try_from_gives = { λ n r. (r ≡ found_at n (marks_at n)) × Numbered marks_number n (marks_at n) };

    fn try_from(number: u64) -> Result<Marks, UnknownNumber> {
        if number > 7 {
            return Err(UnknownNumber { number });
        }
        Ok(Marks {
            two_rate: number % 2 == 1,
            extension: number / 2 % 2 == 1,
            protected: number / 4 == 1,
        })
    }
}

impl From<Marks> for u8 {
    ghost from_gives = { λ marks n. n ≡ marks_number marks };

    fn from(marks: Marks) -> u8 {
        marks.two_rate as u8 + 2 * marks.extension as u8 + 4 * marks.protected as u8
    }
}
