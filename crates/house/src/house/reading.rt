// Reading a house sheet from bytes.
ghost use Rattle.std.specs.Prelude.{◌≡◌, ◌+◌, ◌*◌, ◌^◌, ◌<◌, ◌≤◌, length};
ghost use Rattle.house.specs.Lines.{rate_fits, line_fits};
ghost use Rattle.house.specs.Reading.{at16, at32, rate_in, line_in, plan_of, entry_of, EntryRoom, read_of, reading_answer, reading_after, IsWriting, Faithful};
ghost use Rattle.house.specs.Houses.{lines_of, lines_made};

use super::House;
use crate::field::first_field;
use crate::line::{END_TAG, LINE_BYTES, LINE_LENGTH, LINE_TAG, Line, SheetFault};
use pricing::UnitRate;

// The most lines of a sheet.
const MOST_LINES: usize = 8;

// The number in two bytes from `at` on.
// Offsets are the format's own, and each is read once.
fn word_at(content: &[u8], at: usize) -> u16
    requires { at + 2 ≤ length content.now }
    ensures { result ≡ at16 content.now at }
{
    u16::from_be_bytes([content[at], content[at + 1]])
}

// The number in four bytes from `at` on.
fn long_at(content: &[u8], at: usize) -> u32
    requires { at + 4 ≤ length content.now }
    ensures { result ≡ at32 content.now at }
{
    u32::from_be_bytes([
        content[at],
        content[at + 1],
        content[at + 2],
        content[at + 3],
    ])
}

// The rate in four bytes from `at` on: N_E first, then N_C.
fn rate_at(content: &[u8], at: usize) -> UnitRate
    requires { at + 4 ≤ length content.now }
    ensures { result ≡ rate_in content.now at }
{
    UnitRate {
        ne: word_at(content, at),
        nc: word_at(content, at + 2),
    }
}

// The line in a content of eighteen bytes.
fn line_in(content: &[u8]) -> Line
    requires { length content.now ≡ 18 }
    ensures { result ≡ line_in content.now }
{
    Line {
        charge: long_at(content, 0),
        charge_a_tenth: word_at(content, 4),
        free_tenths: word_at(content, 6),
        least_power: word_at(content, 8),
        day: rate_at(content, 10),
        night: rate_at(content, 14),
    }
}

// Whether both coefficients of a rate are within their limit.
fn rate_fits(rate: UnitRate) -> bool
    ensures { result ≡ rate_fits rate }
{
    rate.ne <= 20_000 && rate.nc <= 20_000
}

// Whether each value of a line is within its limit.
fn fits(line: &Line) -> bool
    ensures { result ≡ line_fits line.now }
{
    line.charge <= 10_000_000
        && line.charge_a_tenth <= 10_000
        && line.free_tenths <= 2_500
        && line.least_power <= 2_500
        && rate_fits(line.day)
        && rate_fits(line.night)
}

// The line in a content of eighteen bytes, if its values are within their limits. Its field begins at the byte `at`.
fn plan_in(content: &[u8], at: u64) -> Result<Option<Line>, SheetFault>
    requires { length content.now ≡ 18 }
    ensures { result ≡ plan_of at (line_in content.now) }
{
    let line = line_in(content);
    if fits(&line) {
        Ok(Some(line))
    } else {
        Err(SheetFault::ValueTooHigh(at))
    }
}

// The line that the field at the front of the bytes is, or none where it ends the sheet. It has `count` lines before it.
fn entry(left: &[u8], count: usize) -> Result<Option<Line>, SheetFault>
    requires { 21 * count + length left.now < 2 ^ 64 }
    ensures value { result ≡ entry_of count (21 * count) left.now }
    ensures room { EntryRoom count left.now result }
{
    let at = (LINE_BYTES * count) as u64;
    if left.is_empty() {
        return Err(SheetFault::MissingEnd(at));
    }
    if left[0] == LINE_TAG && count >= MOST_LINES {
        return Err(SheetFault::NinthLine(at));
    }
    let Some(field) = first_field(left) else {
        return Err(SheetFault::CutShort(at));
    };
    match (field.tag, field.content) {
        (LINE_TAG, content) if content.len() == LINE_LENGTH => plan_in(content, at),
        (END_TAG, []) if !field.behind.is_empty() => Err(SheetFault::BytesBehind(at + 3)),
        (END_TAG, []) if count == 0 => Err(SheetFault::NoLine(at)),
        (END_TAG, []) => Ok(None),
        _ => Err(SheetFault::UnknownField(at)),
    }
}

impl House {
    // The sheet that the bytes are.
    fn from_bytes(bytes: &[u8]) -> Result<House, SheetFault>
        ensures value { lines_made result ≡ read_of bytes.now }
        ensures writing { IsWriting bytes.now (lines_made result) }
    {
        let mut house = House::new();
        while let Some(line) = entry(&bytes[LINE_BYTES * house.count..], house.count)? {
            house.push(line);
        }
        Ok(house)
    }

    // Reads the bytes of a sheet, whose lines then stand in place of those before. Refused bytes leave the lines as they are.
    pub fn read(&mut self, bytes: &[u8]) -> Result<(), SheetFault>
        ensures answer { result ≡ reading_answer (read_of bytes.now) }
        ensures after { lines_of self.new ≡ reading_after (read_of bytes.now) (lines_of self.old) }
        ensures faithful { Faithful bytes.now (lines_of self.old) (lines_of self.new) result }
    {
        *self = House::from_bytes(bytes)?;
        Ok(())
    }
}
