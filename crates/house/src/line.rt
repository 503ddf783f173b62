// A line of a house sheet, and what can be wrong with the bytes of one.
ghost use Rattle.std.specs.Prelude.{◌≡◌};
ghost use Rattle.house.specs.Refusals.{sheet_refusal};

use pricing::UnitRate;
use refusal::{Layer, Refusal};

// The tag of a line's field.
pub const LINE_TAG: u8 = 1;
// The length of a line's content.
pub const LINE_LENGTH: usize = 18;
// The bytes of a line's field, its tag and length among them.
pub const LINE_BYTES: usize = 21;
// The tag of the field that ends a sheet.
pub const END_TAG: u8 = 127;

// One plan: its yearly charge in mills, the mills a year for each tenth of a kVA beyond those without charge, the least power (in tenths of a kVA) that it is open to, and its unit rates by day and by night.
#[derive(Clone, Copy, PartialEq, Eq, Debug)]
pub struct Line {
    pub charge: u32,
    pub charge_a_tenth: u16,
    pub free_tenths: u16,
    pub least_power: u16,
    pub day: UnitRate,
    pub night: UnitRate,
}

// Why bytes are not a house sheet, and at which byte.
#[derive(Clone, Copy, PartialEq, Eq, Debug)]
pub enum SheetFault {
    // the bytes end within the field that begins here
    CutShort(u64),
    // the field that begins here has a tag, or a length for its tag, that means nothing
    UnknownField(u64),
    // the bytes end here, at a field's border, and no end came
    MissingEnd(u64),
    // the end came, and bytes go on here
    BytesBehind(u64),
    // a value of the line that begins here is above its limit
    ValueTooHigh(u64),
    // the end begins here, and no line came before it
    NoLine(u64),
    // a ninth line begins here
    NinthLine(u64),
}

// The refusal that a fault is: 18 for the layout, 19 for a value, 20 for the count of lines; its place is the byte.
impl From<SheetFault> for Refusal {
    ghost from_gives = { λ fault refusal. refusal ≡ sheet_refusal fault };

    fn from(fault: SheetFault) -> Refusal {
        let (number, place) = match fault {
            SheetFault::CutShort(at)
            | SheetFault::UnknownField(at)
            | SheetFault::MissingEnd(at)
            | SheetFault::BytesBehind(at) => (18, at),
            SheetFault::ValueTooHigh(at) => (19, at),
            SheetFault::NoLine(at) | SheetFault::NinthLine(at) => (20, at),
        };
        Refusal {
            number,
            layer: Layer::Sheet,
            place,
        }
    }
}
