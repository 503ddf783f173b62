// Calls made on both boards.
ghost use Rattle.std.specs.Prelude.{◌≡◌, ◌&&◌, map, length, is_ok, vec_len, vec_capacity};
ghost use Rattle.run.specs.Asked.{asked};
ghost use Rattle.run.specs.Runs.{has_room, replies_behind, replies_given, books_left, LawfulRun};
ghost use Rattle.twoboards.specs.Pairs.{table_books, SameBooks};

use super::Pair;
use run::{Answer, Call, NoRoom, has_room, run};
use sheet::Sheet;

impl Pair {
    // How many entries of the journal are in use.
    pub fn entries_in_use(&self) -> usize
        ensures { result ≡ self.now.journal.ledger.board.used }
    {
        self.journal.board().entries_in_use()
    }

    // Makes the calls in order on each board and adds the answers behind what its place holds; where one of the places has too little room reserved, it does nothing. Cabinets with the same books answer the same and have the same books afterwards.
    pub fn run<S: Sheet>(
        &mut self,
        calls: &[Call<S>],
        on_table: &mut Vec<Answer>,
        on_journal: &mut Vec<Answer>,
    ) -> Result<(), NoRoom>
        ensures made { is_ok result ≡ (has_room (vec_capacity on_table.old) (vec_len on_table.old) (length calls.now) && has_room (vec_capacity on_journal.old) (vec_len on_journal.old) (length calls.now)) }
        ensures replies { replies_behind (vec_len on_table.old) on_table.new.items ≡ replies_given (is_ok result) (table_books self.old) (map (asked S.tariff) calls.now) }
        ensures after { table_books self.new ≡ books_left (is_ok result) (table_books self.old) (map (asked S.tariff) calls.now) }
        ensures alike { SameBooks self.old → replies_behind (vec_len on_journal.old) on_journal.new.items ≡ replies_behind (vec_len on_table.old) on_table.new.items }
        ensures same { SameBooks self.old → SameBooks self.new }
        ensures lawful { LawfulRun (table_books self.old) (map (asked S.tariff) calls.now) (replies_behind (vec_len on_table.old) on_table.new.items) (table_books self.new) }
    {
        if !has_room(on_journal, calls.len()) {
            return Err(NoRoom);
        }
        run(&mut self.table, calls, on_table)?;
        run(&mut self.journal, calls, on_journal)
    }
}
