// Numbers and bytes as an answer shows them.
ghost use Rattle.std.specs.Prelude.{◌≡◌, ◌<◌, Some};
ghost use Rattle.answers.specs.Texts.{spaced_all, hex_digit, hex_text, state_text};

use account::State;
use std::fmt;

// Numbers, each behind a space.
#[derive(Clone, Copy)]
pub struct Spaced<'a>(pub &'a [u64]);

impl fmt::Display for Spaced<'_> {
    ghost output = { λ s. Some (spaced_all s.0.now) };

    fn fmt<W: fmt::Write>(&self, f: &mut fmt::Formatter<W>) -> fmt::Result {
        for number in self.0 {
            write!(f, " {number}")?;
        }
        Ok(())
    }
}

// The lower-case digit of a value below 16.
fn hex_digit(value: u8) -> char
    requires { value < 16 }
    ensures digit { result ≡ hex_digit value }
    ensures ascii { result < 128 }
{
    char::from_digit(u32::from(value), 16).unwrap()
}

// Bytes in hexadecimal digits, two for each.
// Written digit by digit, since `{:02x}` pads a number, which takes longer.
#[derive(Clone, Copy)]
pub struct Hex<'a>(pub &'a [u8]);

impl fmt::Display for Hex<'_> {
    ghost output = { λ h. Some (hex_text h.0.now) };

    fn fmt<W: fmt::Write>(&self, f: &mut fmt::Formatter<W>) -> fmt::Result {
        for &byte in self.0 {
            let high = hex_digit(byte / 16);
            let low = hex_digit(byte % 16);
            write!(f, "{high}{low}")?;
        }
        Ok(())
    }
}

// An account's state, by its number.
// A number, since the form of an account holds any.
#[derive(Clone, Copy)]
pub struct StateName(pub u64);

impl fmt::Display for StateName {
    ghost output = { λ s. Some (state_text s.0) };

    fn fmt<W: fmt::Write>(&self, f: &mut fmt::Formatter<W>) -> fmt::Result {
        let number = self.0;
        match State::try_from(number) {
            Ok(State::Running) => f.write_str("running"),
            Ok(State::Ready) => f.write_str("ready"),
            _ => write!(f, "{number}"),
        }
    }
}
