// The price sheets that a line can name.
ghost use Rattle.std.specs.Prelude.{◌≡◌, Some};
ghost use Rattle.script.specs.Lines.{sheet_at, sheet_name};

use crate::named::{Named, first_named};
use std::fmt;

// The name of a price sheet.
#[derive(Clone, Copy, PartialEq, Eq, Debug)]
pub enum SheetName {
    Decree,
    House,
    ProtectedDecree,
    ProtectedHouse,
}

const SHEETS: [SheetName; 4] = [
    SheetName::Decree,
    SheetName::House,
    SheetName::ProtectedDecree,
    SheetName::ProtectedHouse,
];

impl Named for SheetName {
    ghost name_of = { sheet_name };

    fn name(self) -> &'static str {
        match self {
            SheetName::Decree => "decree",
            SheetName::House => "house",
            SheetName::ProtectedDecree => "protected-decree",
            SheetName::ProtectedHouse => "protected-house",
        }
    }
}

impl fmt::Display for SheetName {
    ghost output = { λ name. Some (sheet_name name) };

    fn fmt<W: fmt::Write>(&self, f: &mut fmt::Formatter<W>) -> fmt::Result {
        f.write_str(self.name())
    }
}

// The sheet that a word names.
pub fn sheet_of(word: &[u8]) -> Option<SheetName>
    ensures { result ≡ sheet_at word.now }
{
    first_named(&SHEETS, word)
}
