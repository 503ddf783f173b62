// Changes made one after the other, and the law that a board's rows keep to what was asked and answered.
ghost use Rattle.std.specs.Prelude.{◌≡◌, ℕ, ◌≤◌, true, ◌++◌, length, drop, is_ok, nat_le};
ghost use Rattle.boardlaw.specs.Changes.{change_answer, changed, answers_of, changed_all, placed, applied};
ghost use Rattle.boardlaw.specs.History.{History, told, BoardLaw, LawStands};

use crate::change::Change;
use board::{Board, BoardFault};

// The place for the answers is shorter than the list of changes.
#[derive(Clone, Copy, PartialEq, Eq, Debug)]
pub struct NoRoom;

// Makes one change, and answers as the board does.
pub fn make_change<B: Board>(board: &mut B, change: &Change) -> Result<(), BoardFault>
    ensures answer { result ≡ change_answer (B.meaning board.old) change.now }
    ensures after { B.meaning board.new ≡ changed (B.meaning board.old) change.now }
{
    match change {
        Change::Store(number, row) => board.store(*number, row),
        Change::Clear(number) => board.clear(*number),
    }
}

// Makes the changes in order and writes each answer into its place.
fn apply_all<B: Board>(board: &mut B, changes: &[Change], answers: &mut [Result<(), BoardFault>])
    requires { length changes.now ≤ length answers.old }
    ensures place { answers.new ≡ answers_of (B.meaning board.old) changes.now ++ drop (length changes.now) answers.old }
    ensures after { B.meaning board.new ≡ changed_all (B.meaning board.old) changes.now }
    ensures lawful { (c l : ℕ) (t : History) → BoardLaw c l t (B.meaning board.old) → BoardLaw c l (told t changes.now answers.new) (B.meaning board.new) }
{
    // By index: a zip of both leaves open what the answers' place holds behind the loop.
    for (i, change) in changes.iter().enumerate() {
        answers[i] = make_change(board, change);
    }
}

// Makes the changes in order and writes each answer into its place, or, where the place is too short, does nothing.
// A board that kept the law before keeps it after them.
pub fn apply<B: Board>(
    board: &mut B,
    changes: &[Change],
    answers: &mut [Result<(), BoardFault>],
) -> Result<(), NoRoom>
    ensures made { is_ok result ≡ nat_le (length changes.now) (length answers.old) }
    ensures place { answers.new ≡ placed (B.meaning board.old) changes.now answers.old }
    ensures after { B.meaning board.new ≡ applied (B.meaning board.old) changes.now answers.old }
    ensures lawful { is_ok result ≡ true → (c l : ℕ) (t : History) → BoardLaw c l t (B.meaning board.old) → BoardLaw c l (told t changes.now answers.new) (B.meaning board.new) }
{
    if answers.len() < changes.len() {
        return Err(NoRoom);
    }
    apply_all(board, changes, answers);
    Ok(())
}

// A new board of any capacity and limit keeps the law over every list of changes.
pub fn law_stands()
    ensures { LawStands }
{}
