// The calls on a table board.
ghost use Rattle.std.specs.Prelude.{◌≡◌, ◌*◌, ◌<◌, ◌≤◌, false, length, IfSome, vec_len};
ghost use Rattle.std.specs.Option.{option_map};
ghost use Rattle.board.specs.Meaning.{empty, row_at, with_row, full};
ghost use Rattle.table.specs.Tables.{table_meaning};
ghost use Rattle.table.specs.Lawfulness.{table-lawful};

use crate::table::Table;
use blocks::{Blocks, is_row, mark_of};
use board::{Board, BoardFault, copy_row, inside};

impl Table {
    // A board without rows over a memory, whatever it held.
    pub(crate) fn without_rows(memory: Vec<u8>, capacity: u64) -> Table
        requires some { 1 ≤ capacity }
        requires few { capacity ≤ 4096 }
        requires fits { 129 * capacity ≤ vec_len memory }
        ensures { table_meaning result ≡ empty capacity capacity }
    {
        Table {
            slots: Blocks::zeros(memory),
            capacity,
        }
    }

    // The row of a number.
    fn row_at(&self, number: usize) -> Option<&[u8]>
        requires inside { number < self.now.capacity }
        ensures value { option_map (λ x. x.now) result ≡ row_at (table_meaning self.now) number }
        ensures len { IfSome result (λ x. length x.now ≡ 128) }
    {
        let slot = self.slots.read(number);
        if !is_row(slot[0]) {
            return None;
        }
        Some(&slot[1..])
    }

    // Sets the row of a number, or removes it. No call finds a table full.
    fn write_slot(&mut self, number: usize, row: Option<&[u8; 128]>)
        requires inside { number < self.old.capacity }
        ensures after { table_meaning self.new ≡ with_row (table_meaning self.old) number (option_map (λ r. r.now) row.entry) }
        ensures room { full (table_meaning self.old) number ≡ false }
    {
        let mark = mark_of(row);
        self.slots.write(number, &[mark], row.unwrap_or(&[0; 128]));
    }
}

// The table as a board: its limit is its capacity.
impl Board for Table {
    ghost meaning = { table_meaning };

    ghost lawful = { λ b. table-lawful b };

    fn capacity(&self) -> u64 {
        self.capacity
    }

    fn limit(&self) -> u64 {
        self.capacity
    }

    fn read(&mut self, number: u64, place: &mut [u8; 128]) -> Result<bool, BoardFault> {
        let number = inside(number, self.capacity)?;
        Ok(copy_row(self.row_at(number), place))
    }

    fn store(&mut self, number: u64, row: &[u8; 128]) -> Result<(), BoardFault> {
        let number = inside(number, self.capacity)?;
        self.write_slot(number, Some(row));
        Ok(())
    }

    fn clear(&mut self, number: u64) -> Result<(), BoardFault> {
        let number = inside(number, self.capacity)?;
        self.write_slot(number, None);
        Ok(())
    }
}
