// Making two cabinets.
ghost use Rattle.std.specs.Prelude.{◌≡◌, ◌≤◌, [], IfOk};
ghost use Rattle.board.specs.Meaning.{empty};
ghost use Rattle.table.specs.Tables.{table_meaning};
ghost use Rattle.journal.specs.Journals.{journal_meaning};
ghost use Rattle.cabinet.specs.Books.{books_with};
ghost use Rattle.twoboards.specs.declared.pair.making.NoPair.TheVariants.{Memory as NoMemory};
ghost use Rattle.twoboards.specs.Pairs.{journal_length, table_books, SameBooks};

use super::Pair;
use board::MOST_NUMBERS;
use cabinet::Cabinet;
use journal::{ENTRY, Journal, JournalPlan};
use std::alloc::{AllocError, Global};
use table::{SLOT, Table, TablePlan};

// The entries of the journal beyond one for each number.
const SPARE: u64 = 8;

// Why there is no pair.
#[derive(Clone, Copy)]
pub enum NoPair {
    // a board has 1 to 4,096 numbers
    Figures,
    Memory,
}

impl From<AllocError> for NoPair {
    ghost from_gives = { λ _ r. r ≡ NoMemory };

    fn from(_value: AllocError) -> NoPair {
        NoPair::Memory
    }
}

// A table board of so many numbers.
// Beside the journal's making, since each has a length and a check of its own.
fn new_table(heap: Global, dwellings: u64) -> Result<Table, NoPair>
    requires { dwellings ≤ 4096 }
    ensures { IfOk result (λ t. table_meaning t ≡ empty dwellings dwellings) }
{
    let memory = vec![in heap; 0u8; SLOT * dwellings as usize]?;
    TablePlan::new(dwellings, memory)
        .map(|plan| plan.make())
        .map_err(|_| NoPair::Figures)
}

// The bytes of the journal of so many numbers, at most 4,096: an entry for each, and a few to spare.
pub fn journal_length(numbers: u64) -> u64
    ensures { result ≡ journal_length numbers }
{
    ENTRY as u64 * (numbers.min(MOST_NUMBERS as u64) + SPARE)
}

// A journal board of so many numbers, each of which may have a row, and a few entries to spare.
fn new_journal(heap: Global, dwellings: u64) -> Result<Journal, NoPair>
    requires { dwellings ≤ 4096 }
    ensures { IfOk result (λ j. journal_meaning j ≡ empty dwellings dwellings) }
{
    let memory = vec![in heap; 0u8; journal_length(dwellings) as usize]?;
    JournalPlan::new(dwellings, dwellings, memory)
        .map(|plan| plan.make())
        .map_err(|_| NoPair::Figures)
}

impl Pair {
    // Two new cabinets for so many dwellings, with no month posted and no account, so that their books are the same.
    pub fn new(heap: Global, dwellings: u64) -> Result<Pair, NoPair>
        ensures { IfOk result (λ p. (table_books p ≡ books_with [] (empty dwellings dwellings)) × SameBooks p) }
    {
        if dwellings > MOST_NUMBERS as u64 {
            return Err(NoPair::Figures);
        }
        let table = Cabinet::new(heap, new_table(heap, dwellings)?)?;
        let journal = Cabinet::new(heap, new_journal(heap, dwellings)?)?;
        Ok(Pair { table, journal })
    }
}
