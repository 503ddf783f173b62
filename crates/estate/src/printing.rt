// Calls as the lines of a replay script.
use account::OpeningForm;
use answers::{Hex, Spaced};
use facts::ProfileForm;
use lineforms::SheetName;
use run::Call;
use std::{fmt, io};

// A call as the line that asks for it.
#[derive(Clone, Copy)]
pub struct CallLine<'a>(pub &'a Call<SheetName>);

impl fmt::Display for CallLine<'_> {
    fn fmt<W: fmt::Write>(&self, f: &mut fmt::Formatter<W>) -> fmt::Result {
        match self.0 {
            Call::Post { s, mx, nc } => write!(f, "post {s} {mx} {nc}"),
            Call::Open { number, form } => write_opening(f, *number, form),
            Call::Read { number, indices } => {
                let indices = Spaced(indices);
                write!(f, "read {number}{indices}")
            }
            Call::Settle { number, end, sheet } => write!(f, "settle {number} {end} {sheet}"),
            Call::Pay { number, cents } => write!(f, "pay {number} {cents}"),
            Call::Close { number } => write!(f, "close {number}"),
            Call::Show { number } => write!(f, "show {number}"),
        }
    }
}

fn write_opening<W: fmt::Write>(
    f: &mut fmt::Formatter<W>,
    number: u64,
    form: &OpeningForm,
) -> fmt::Result {
    let ProfileForm {
        class,
        marks,
        power,
        exempt,
        ..
    } = form.profile;
    let kinds = Spaced(&form.profile.kinds);
    let first = form.first;
    let indices = Spaced(&form.indices);
    write!(
        f,
        "open {number} {class} {marks} {power} {exempt}{kinds} {first}{indices}"
    )
}

// The board that the script is played on, a journal of so many numbers and entries.
pub fn print_board(rt: &impl Print, numbers: u64, bytes: u64) -> io::Result<()> {
    println!(rt; "board journal {numbers} {numbers} {bytes}")
}

// The price list of a year.
pub fn print_house(rt: &impl Print, bytes: &[u8]) -> io::Result<()> {
    let bytes = Hex(bytes);
    println!(rt; "house {bytes}")
}
