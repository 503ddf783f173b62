// The calls on a journal board.
ghost use Rattle.std.specs.Prelude.{◌≡◌, ◌/◌, ◌<◌, ◌≤◌, false, length, is_some, IfSome, vec_len, slice_set};
ghost use Rattle.std.specs.Option.{option_map};
ghost use Rattle.board.specs.Meaning.{empty, row_at, with_row, full, standing};
ghost use Rattle.journal.specs.Journals.{journal_meaning};
ghost use Rattle.journal.specs.Lawfulness.{journal-lawful};

use crate::entries::Entries;
use crate::journal::Journal;
use board::{Board, BoardFault, copy_row, inside};

impl Journal {
    // A board without rows over a memory, whatever it held.
    pub(crate) fn without_rows(memory: Vec<u8>, capacity: u64, limit: u64) -> Journal
        requires some { 1 ≤ limit }
        requires under { limit ≤ capacity }
        requires few { capacity ≤ 4096 }
        requires spare { limit < vec_len memory / 131 }
        requires most { vec_len memory / 131 ≤ 65535 }
        ensures { journal_meaning result ≡ empty capacity limit }
    {
        Journal {
            entries: Entries::unused(memory, capacity),
            limit,
            used: 0,
            filled: 0,
        }
    }

    // How many entries are in use. Only a dropping of stale ones lowers it.
    pub fn entries_in_use(&self) -> usize
        ensures { result ≡ self.now.used }
    {
        self.used
    }

    // The row of a number.
    fn row_at(&self, number: usize) -> Option<&[u8]>
        requires inside { number < self.now.entries.capacity }
        ensures value { option_map (λ x. x.now) result ≡ row_at (journal_meaning self.now) number }
        ensures len { IfSome result (λ x. length x.now ≡ 128) }
    {
        let place = self.entries.latest(number)?;
        self.entries.row(place)
    }

    // Drops stale entries where none is free.
    fn make_room(&mut self)
        ensures same { journal_meaning self.new ≡ journal_meaning self.old }
        ensures room { self.new.used < self.new.entries.blocks.count }
    {
        if self.used == self.entries.places() {
            self.used = self.entries.drop_stale(self.used);
        }
    }

    // Writes one entry more, after which `filled` rows stand.
    fn append(&mut self, number: usize, row: Option<&[u8; 128]>, filled: u64)
        requires room { self.old.used < self.old.entries.blocks.count }
        requires inside { number < self.old.entries.capacity }
        requires count { filled ≡ standing (slice_set (journal_meaning self.old).rows number (option_map (λ r. r.now) row)) }
        requires bounded { filled ≤ self.old.limit }
        ensures after { journal_meaning self.new ≡ with_row (journal_meaning self.old) number (option_map (λ r. r.now) row.entry) }
    {
        self.entries.write(self.used, number, row);
        self.used += 1;
        self.filled = filled;
    }

    // Sets the row of a number or removes it, where one stood or not.
    fn write(&mut self, number: usize, stood: bool, row: Option<&[u8; 128]>)
        requires inside { number < self.old.entries.capacity }
        requires before { stood ≡ is_some (row_at (journal_meaning self.old) number) }
        requires room { full (journal_meaning self.old) number ≡ false }
        ensures after { journal_meaning self.new ≡ with_row (journal_meaning self.old) number (option_map (λ r. r.now) row.entry) }
    {
        self.make_room();
        let filled = self.filled + row.is_some() as u64 - stood as u64;
        self.append(number, row, filled);
    }
}

// The journal as a board.
impl Board for Journal {
    ghost meaning = { journal_meaning };

    ghost lawful = { λ b. journal-lawful b };

    fn capacity(&self) -> u64 {
        self.entries.capacity()
    }

    fn limit(&self) -> u64 {
        self.limit
    }

    fn read(&mut self, number: u64, place: &mut [u8; 128]) -> Result<bool, BoardFault> {
        let number = inside(number, self.capacity())?;
        Ok(copy_row(self.row_at(number), place))
    }

    fn store(&mut self, number: u64, row: &[u8; 128]) -> Result<(), BoardFault> {
        let index = inside(number, self.capacity())?;
        let stood = self.row_at(index).is_some();
        if !stood && self.filled >= self.limit {
            return Err(BoardFault::Full(number));
        }
        self.write(index, stood, Some(row));
        Ok(())
    }

    fn clear(&mut self, number: u64) -> Result<(), BoardFault> {
        let number = inside(number, self.capacity())?;
        if self.row_at(number).is_some() {
            self.write(number, true, None);
        }
        Ok(())
    }
}
