// One of the two boards.
ghost use Rattle.boards.specs.Boards.{board_meaning};
ghost use Rattle.boards.specs.Lawfulness.{board-lawful};

use board::{Board, BoardFault};
use journal::Journal;
use table::Table;

// A board of either kind. An enum and not a boxed board, since the kinds are closed and a made cabinet asks for no heap.
#[derive(Drop)]
pub enum AnyBoard {
    Table(Table),
    Journal(Journal),
}

impl Board for AnyBoard {
    ghost meaning = { board_meaning };

    ghost lawful = { λ b. board-lawful b };

    fn capacity(&self) -> u64 {
        match self {
            AnyBoard::Table(board) => board.capacity(),
            AnyBoard::Journal(board) => board.capacity(),
        }
    }

    fn limit(&self) -> u64 {
        match self {
            AnyBoard::Table(board) => board.limit(),
            AnyBoard::Journal(board) => board.limit(),
        }
    }

    fn read(&mut self, number: u64, place: &mut [u8; 128]) -> Result<bool, BoardFault> {
        match self {
            AnyBoard::Table(board) => board.read(number, place),
            AnyBoard::Journal(board) => board.read(number, place),
        }
    }

    fn store(&mut self, number: u64, row: &[u8; 128]) -> Result<(), BoardFault> {
        match self {
            AnyBoard::Table(board) => board.store(number, row),
            AnyBoard::Journal(board) => board.store(number, row),
        }
    }

    fn clear(&mut self, number: u64) -> Result<(), BoardFault> {
        match self {
            AnyBoard::Table(board) => board.clear(number),
            AnyBoard::Journal(board) => board.clear(number),
        }
    }
}
