// The months that a cabinet keeps.
ghost use Rattle.std.specs.Prelude.{◌≤◌, vec_len, vec_capacity};

use figures::Month;

// The figures of the months posted so far, the first one first, with room for 1,200 of them.
#[derive(Drop)]
pub struct Months {
    posted: Vec<Month>,
    ghost room: { 1200 ≤ vec_capacity posted },
    ghost few: { vec_len posted ≤ 1200 },
}

mod posting;
