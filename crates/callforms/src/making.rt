// Lines that make a board.
ghost use Rattle.std.specs.Prelude.{◌≡◌};
ghost use Rattle.words.specs.Numbers.{numbers_of};
ghost use Rattle.callforms.specs.Boards.{table_form, journal_form, board_in};

use crate::forms::BoardForm;
use table::SLOT;
use words::{all_numbers, is_word, split_word};

// `table C [LENGTH]`; without a length as many bytes as the board takes, the most that 64 bits hold where that is more
fn table_in(rest: &[u8]) -> Option<BoardForm>
    ensures { result ≡ table_form (numbers_of 26 rest.now) }
{
    let numbers = all_numbers(rest)?;
    match numbers.as_slice() {
        [capacity] => Some(BoardForm::Table {
            capacity: *capacity,
            length: capacity.saturating_mul(SLOT as u64),
        }),
        [capacity, length] => Some(BoardForm::Table {
            capacity: *capacity,
            length: *length,
        }),
        _ => None,
    }
}

// `journal C L LENGTH`
fn journal_in(rest: &[u8]) -> Option<BoardForm>
    ensures { result ≡ journal_form (numbers_of 26 rest.now) }
{
    let numbers = all_numbers(rest)?;
    match numbers.as_slice() {
        [capacity, limit, length] => Some(BoardForm::Journal {
            capacity: *capacity,
            limit: *limit,
            length: *length,
        }),
        _ => None,
    }
}

// The board that a text asks for.
pub fn board_in(text: &[u8]) -> Option<BoardForm>
    ensures { result ≡ board_in text.now }
{
    let (word, rest) = split_word(text);
    // tests in turn, since the proof of a match on the two words stays open
    if is_word(word, b"table") {
        table_in(rest)
    } else if is_word(word, b"journal") {
        journal_in(rest)
    } else {
        None
    }
}
