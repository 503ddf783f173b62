// A cabinet on each kind of board.
use cabinet::Cabinet;
use journal::Journal;
use table::Table;

pub mod asking;
pub mod making;

// Two cabinets for one estate.
#[derive(Drop)]
pub struct Pair {
    table: Cabinet<Table>,
    journal: Cabinet<Journal>,
}
