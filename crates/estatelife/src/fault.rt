// Why an estate cannot go on.
use house::SheetFault;
use run::NoRoom;
use std::alloc::{AllocError, AllocFailed};
use std::error::Error;
use std::fmt;
use twoboards::NoPair;

#[derive(Clone, Copy, PartialEq, Eq, Debug)]
pub enum EstateFault {
    // a board has 1 to 4,096 numbers
    Dwellings,
    Memory,
    // a price list that is no house sheet
    PriceList,
}

impl From<AllocError> for EstateFault {
    fn from(_value: AllocError) -> EstateFault {
        EstateFault::Memory
    }
}

impl<T: Drop> From<AllocFailed<T>> for EstateFault {
    fn from(_value: AllocFailed<T>) -> EstateFault {
        EstateFault::Memory
    }
}

impl From<NoRoom> for EstateFault {
    fn from(_value: NoRoom) -> EstateFault {
        EstateFault::Memory
    }
}

impl From<SheetFault> for EstateFault {
    fn from(_value: SheetFault) -> EstateFault {
        EstateFault::PriceList
    }
}

impl From<NoPair> for EstateFault {
    fn from(value: NoPair) -> EstateFault {
        match value {
            NoPair::Figures => EstateFault::Dwellings,
            NoPair::Memory => EstateFault::Memory,
        }
    }
}

impl fmt::Display for EstateFault {
    fn fmt<W: fmt::Write>(&self, f: &mut fmt::Formatter<W>) -> fmt::Result {
        f.write_str(match *self {
            EstateFault::Dwellings => "no board has so many numbers",
            EstateFault::Memory => "no memory is left",
            EstateFault::PriceList => "a price list is no house sheet",
        })
    }
}

impl Error for EstateFault {}
