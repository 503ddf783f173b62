// A board that writes entries one behind the other and drops stale ones when its memory is full.
ghost use Rattle.std.specs.Prelude.{◌≡◌, ◌<◌, ◌≤◌, vec_items};
ghost use Rattle.board.specs.Meaning.{standing};
ghost use Rattle.journal.specs.Replay.{Leads};
ghost use Rattle.journal.specs.Entries.{notes, entry_rows};

use crate::entries::Entries;

pub mod calls;
pub mod plan;

// The entries, how many of them are in use, and how many rows stand. More entries than rows may stand, so one is always to be had.
#[derive(Drop)]
pub struct Journal {
    entries: Entries,
    limit: u64,
    used: usize,
    filled: u64,
    ghost some: { 1 ≤ limit },
    ghost under: { limit ≤ entries.capacity },
    ghost spare: { limit < entries.blocks.count },
    ghost within: { used ≤ entries.blocks.count },
    ghost index: { Leads entries.capacity entries.latest (notes used (vec_items entries.blocks.memory)) },
    ghost count: { filled ≡ standing (entry_rows entries.capacity used (vec_items entries.blocks.memory)) },
    ghost bounded: { filled ≤ limit },
}
