// A board that keeps each number's row in a slot of its own, so that as many rows may stand as there are numbers.
ghost use Rattle.std.specs.Prelude.{◌≤◌};

use blocks::Blocks;

pub mod calls;
pub mod plan;

// The bytes of a slot: a mark and a row.
pub const SLOT: usize = 129;

// The memory's first slots, one a number.
#[derive(Drop)]
pub struct Table {
    slots: Blocks<SLOT>,
    capacity: u64,
    ghost some: { 1 ≤ capacity },
    ghost few: { capacity ≤ 4096 },
    ghost fits: { capacity ≤ slots.count },
}
