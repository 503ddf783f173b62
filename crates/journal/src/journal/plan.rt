// What a journal board is made of: its figures and its memory, checked before anything moves.
ghost use Rattle.std.specs.Prelude.{◌≡◌, ◌/◌, ◌<◌, ◌≤◌, Ok, Err, vec_len, MatchResult};
ghost use Rattle.board.specs.Meaning.{empty};
ghost use Rattle.journal.specs.Entries.{journal_check};
ghost use Rattle.journal.specs.Journals.{journal_meaning};

use crate::entries::ENTRY;
use crate::journal::Journal;
use board::{BoardFault, MOST_NUMBERS};

// A capacity, a limit and a memory that passed the check, so that the making cannot fail.
#[derive(Drop)]
pub struct JournalPlan {
    memory: Vec<u8>,
    capacity: u64,
    limit: u64,
    ghost some: { 1 ≤ limit },
    ghost under: { limit ≤ capacity },
    ghost few: { capacity ≤ 4096 },
    ghost spare: { limit < vec_len memory / 131 },
    ghost most: { vec_len memory / 131 ≤ 65535 },
}

impl JournalPlan {
    // Whether a memory of `len` bytes can be a journal board of this capacity and limit; the memory need not be at hand.
    pub fn check(capacity: u64, limit: u64, len: u64) -> Result<(), BoardFault>
        ensures { result ≡ journal_check capacity limit len }
    {
        let most = MOST_NUMBERS as u64;
        let places = len / ENTRY as u64;
        if capacity < 1
            || capacity > most
            || limit < 1
            || limit > capacity
            || places <= limit
            || places > 65535
        {
            return Err(BoardFault::Unfit(len));
        }
        Ok(())
    }

    // Takes the memory for a board, or hands it back as it was.
    pub fn new(
        capacity: u64,
        limit: u64,
        memory: Vec<u8>,
    ) -> Result<JournalPlan, (BoardFault, Vec<u8>)>
        ensures { MatchResult result (λ p. (journal_check capacity limit (vec_len memory) ≡ Ok tt) × (p.capacity ≡ capacity) × (p.limit ≡ limit) × (p.memory ≡ memory)) (λ e. (journal_check capacity limit (vec_len memory) ≡ Err e.0) × (e.1 ≡ memory)) }
    {
        // Both arms take the memory, so that `map` and `map_err` cannot share it.
        match JournalPlan::check(capacity, limit, memory.len() as u64) {
            Ok(()) => Ok(JournalPlan {
                memory,
                capacity,
                limit,
            }),
            Err(fault) => Err((fault, memory)),
        }
    }

    // An empty board, whatever the memory held.
    pub fn make(self) -> Journal
        ensures { journal_meaning result ≡ empty self.capacity self.limit }
    {
        Journal::without_rows(self.memory, self.capacity, self.limit)
    }
}
