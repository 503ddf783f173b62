// Lines that look at a row, and lines of an earlier user of the board.
ghost use Rattle.std.specs.Prelude.{◌≡◌, None};
ghost use Rattle.answers.specs.Tells.{lines_read};
ghost use Rattle.answerwords.specs.Words.{row_of};
ghost use Rattle.bench.specs.Stands.{stand_of};
ghost use Rattle.bench.specs.Deeds.{row_after, clear_reply, clear_after};
ghost use Rattle.benchlines.specs.Answers.{row_line_answer, deed_answer, store_line_answer, store_line_after};

use answers::Answer;
use answerwords::row_of;
use bench::Bench;
use board::BoardFault;

// `row ACCOUNT`
pub fn row_answer(number: u64, bench: &mut Bench) -> Answer
    ensures answer { result ≡ row_line_answer (stand_of bench.old) number }
    ensures after { stand_of bench.new ≡ row_after (stand_of bench.old) number }
    ensures unmoved { lines_read result ≡ None }
{
    let mut row = [0u8; 128];
    match bench.row(number, &mut row) {
        None => Answer::Unreadable,
        Some(Ok(true)) => Answer::Row(row),
        Some(Ok(false)) => Answer::Vacant,
        Some(Err(refusal)) => Answer::Refused(refusal),
    }
}

// What an earlier user of the board is answered.
fn deed_answer(outcome: Option<Result<(), BoardFault>>) -> Answer
    ensures value { result ≡ deed_answer outcome }
    ensures unmoved { lines_read result ≡ None }
{
    match outcome {
        None => Answer::Unreadable,
        Some(Ok(())) => Answer::Done,
        Some(Err(fault)) => Answer::Refused(fault.into()),
    }
}

// `store ACCOUNT HEX`
pub fn store_answer(number: u64, text: &[u8], bench: &mut Bench) -> Answer
    ensures answer { result ≡ store_line_answer (stand_of bench.old) number (row_of text.now) }
    ensures after { stand_of bench.new ≡ store_line_after (stand_of bench.old) number (row_of text.now) }
    ensures unmoved { lines_read result ≡ None }
{
    match row_of(text) {
        Some(row) => deed_answer(bench.store(number, &row)),
        None => Answer::Unreadable,
    }
}

// `clear ACCOUNT`
pub fn clear_answer(number: u64, bench: &mut Bench) -> Answer
    ensures answer { result ≡ deed_answer (clear_reply (stand_of bench.old) number) }
    ensures after { stand_of bench.new ≡ clear_after (stand_of bench.old) number }
    ensures unmoved { lines_read result ≡ None }
{
    deed_answer(bench.clear(number))
}
