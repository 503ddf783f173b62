// The house sheet.
ghost use Rattle.std.specs.Prelude.{◌≡◌, ◌≤◌, length, take};
ghost use Rattle.house.specs.Lines.{LineLimits};

use crate::line::Line;

// A house sheet: up to eight lines, each within its limits. The first `count` places of `lines` are in use: a made cabinet takes no memory, and a sheet is copied.
#[derive(Clone, Copy)]
pub struct House {
    lines: [Line; 8],
    count: usize,
    ghost room: { length lines ≡ 8 },
    ghost few: { count ≤ 8 },
    ghost limits: { LineLimits (take count lines) },
}

pub mod lines;
pub mod reading;
pub mod tariff;
pub mod writing;
