// What is to be measured.
use board::MOST_NUMBERS;
use journal::ENTRY;
use std::str::FromStr;
use table::SLOT;

// The kinds of work.
#[derive(Clone, Copy)]
pub enum Work {
    // a plan chosen on the decree sheet
    Choose,
    // a row read from a board, or stored on it
    Load,
    Store,
    // calls on a cabinet; a settlement with the reading before it
    Post,
    Read,
    Settle,
    Pay,
}

#[derive(Clone, Copy)]
pub enum BoardKind {
    Table,
    Journal,
}

// A work on a board with so many accounts (and entries, of a journal), in a cabinet with so many months posted, done so many times.
#[derive(Clone, Copy)]
pub struct Job {
    pub work: Work,
    pub board: BoardKind,
    pub accounts: u64,
    pub entries: u64,
    pub months: u64,
    pub count: u64,
}

// The word names no work, or no board.
#[derive(Clone, Copy)]
pub struct UnknownWord;

impl FromStr for Work {
    type Err = UnknownWord;

    fn from_str(word: &str) -> Result<Work, UnknownWord> {
        match word {
            "choose" => Ok(Work::Choose),
            "load" => Ok(Work::Load),
            "store" => Ok(Work::Store),
            "post" => Ok(Work::Post),
            "read" => Ok(Work::Read),
            "settle" => Ok(Work::Settle),
            "pay" => Ok(Work::Pay),
            _ => Err(UnknownWord),
        }
    }
}

impl FromStr for BoardKind {
    type Err = UnknownWord;

    fn from_str(word: &str) -> Result<BoardKind, UnknownWord> {
        match word {
            "table" => Ok(BoardKind::Table),
            "journal" => Ok(BoardKind::Journal),
            _ => Err(UnknownWord),
        }
    }
}

impl Job {
    // The job that the words of a command give, the program's own name first.
    pub fn of_words(words: &[String]) -> Option<Job> {
        let [_, work, board, accounts, entries, months, count] = words else {
            return None;
        };
        Some(Job {
            work: work.as_str().parse().ok()?,
            board: board.as_str().parse().ok()?,
            accounts: accounts.as_str().parse().ok()?,
            entries: entries.as_str().parse().ok()?,
            months: months.as_str().parse().ok()?,
            count: count.as_str().parse().ok()?,
        })
    }

    // The bytes of a table board for the accounts; what no board can have is cut, and refused at the making.
    pub fn table_length(&self) -> usize {
        SLOT * self.accounts.min(MOST_NUMBERS as u64 + 1) as usize
    }

    // The bytes of a journal board with the entries.
    pub fn journal_length(&self) -> usize {
        ENTRY * self.entries.min(65_536) as usize
    }
}
