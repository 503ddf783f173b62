// Writing a house sheet as bytes.
ghost use Rattle.std.specs.Prelude.{◌≡◌, ◌+◌, ◌≤◌, ◌++◌, length, take, drop};
ghost use Rattle.house.specs.Writing.{line_bytes, written};
ghost use Rattle.house.specs.Houses.{lines_of};

use super::House;
use crate::line::{END_TAG, LINE_BYTES, LINE_LENGTH, LINE_TAG, Line};

// The bytes of the field that ends a sheet.
const END: [u8; 3] = [END_TAG, 0, 0];

// The bytes of a line's field.
pub fn line_bytes(line: &Line) -> [u8; LINE_BYTES]
    ensures { result ≡ line_bytes line.now }
{
    let [l0, l1] = (LINE_LENGTH as u16).to_be_bytes();
    let [c0, c1, c2, c3] = line.charge.to_be_bytes();
    let [t0, t1] = line.charge_a_tenth.to_be_bytes();
    let [f0, f1] = line.free_tenths.to_be_bytes();
    let [p0, p1] = line.least_power.to_be_bytes();
    let [d0, d1] = line.day.ne.to_be_bytes();
    let [d2, d3] = line.day.nc.to_be_bytes();
    let [n0, n1] = line.night.ne.to_be_bytes();
    let [n2, n3] = line.night.nc.to_be_bytes();
    [
        LINE_TAG, l0, l1, c0, c1, c2, c3, t0, t1, f0, f1, p0, p1, d0, d1, d2, d3, n0, n1, n2, n3,
    ]
}

// Copies the bytes to the place from `at` on.
fn put(place: &mut [u8; 171], at: usize, bytes: &[u8])
    requires { at + length bytes.now ≤ 171 }
    ensures front { take (at + length bytes.now) place.new ≡ take at place.old ++ bytes.now }
    ensures rest { drop (at + length bytes.now) place.new ≡ drop (at + length bytes.now) place.old }
{
    let end = at + bytes.len();
    place[at..end].copy_from_slice(bytes);
}

impl House {
    // Writes the bytes of the sheet to the front of the place and answers how many they are; the rest of the place stays as it was.
    pub fn write(&self, place: &mut [u8; 171]) -> usize
        ensures count { result ≡ length (written (lines_of self.now)) }
        ensures bytes { place.new ≡ written (lines_of self.now) ++ drop result place.old }
    {
        // Where the last line ends is where the end goes, so the place is counted and not cut into chunks.
        let mut at = 0;
        for line in self.lines() {
            put(place, at, &line_bytes(line));
            at += LINE_BYTES;
        }
        put(place, at, &END);
        at + END.len()
    }
}
