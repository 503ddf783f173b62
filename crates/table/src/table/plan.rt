// What a table board is made of: its figures and its memory, checked before anything moves.
ghost use Rattle.std.specs.Prelude.{◌≡◌, ◌*◌, ◌≤◌, Ok, Err, vec_len, MatchResult};
ghost use Rattle.board.specs.Meaning.{empty};
ghost use Rattle.table.specs.Slots.{table_check};
ghost use Rattle.table.specs.Tables.{table_meaning};

use crate::table::{SLOT, Table};
use board::{BoardFault, MOST_NUMBERS};

// A capacity and a memory that passed the check, so that the making cannot fail.
#[derive(Drop)]
pub struct TablePlan {
    memory: Vec<u8>,
    capacity: u64,
    ghost some: { 1 ≤ capacity },
    ghost few: { capacity ≤ 4096 },
    ghost fits: { 129 * capacity ≤ vec_len memory },
}

// A journal's plan has a limit and another rule for its memory: a trait over both would name each figure again.
impl TablePlan {
    // Whether a memory of `len` bytes can be a table board of this capacity; the memory need not be at hand.
    pub fn check(capacity: u64, len: u64) -> Result<(), BoardFault>
        ensures { result ≡ table_check capacity len }
    {
        let most = MOST_NUMBERS as u64;
        if capacity < 1 || capacity > most || len < SLOT as u64 * capacity {
            return Err(BoardFault::Unfit(len));
        }
        Ok(())
    }

    // Takes the memory for a board, or hands it back as it was.
    pub fn new(capacity: u64, memory: Vec<u8>) -> Result<TablePlan, (BoardFault, Vec<u8>)>
        ensures { MatchResult result (λ p. (table_check capacity (vec_len memory) ≡ Ok tt) × (p.capacity ≡ capacity) × (p.memory ≡ memory)) (λ e. (table_check capacity (vec_len memory) ≡ Err e.0) × (e.1 ≡ memory)) }
    {
        // Both arms take the memory, so that `map` and `map_err` cannot share it.
        match TablePlan::check(capacity, memory.len() as u64) {
            Ok(()) => Ok(TablePlan { memory, capacity }),
            Err(fault) => Err((fault, memory)),
        }
    }

    // An empty board, whatever the memory held.
    pub fn make(self) -> Table
        ensures { table_meaning result ≡ empty self.capacity self.capacity }
    {
        Table::without_rows(self.memory, self.capacity)
    }
}
