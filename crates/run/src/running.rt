// Calls made one after the other.
ghost use Rattle.std.specs.Prelude.{◌≡◌, map, length, take, is_ok, vec_len, vec_capacity};
ghost use Rattle.cabinet.specs.Books.{books_of};
ghost use Rattle.run.specs.Asked.{asked};
ghost use Rattle.run.specs.Runs.{has_room, replies_behind, replies_given, books_left, ReachedRun, LawfulRun};

use crate::answer::Answer;
use crate::applying::apply;
use crate::call::Call;
use board::Board;
use cabinet::Cabinet;
use sheet::Sheet;

// The place for the answers has no room reserved for as many as there are calls.
#[derive(Clone, Copy, PartialEq, Eq, Debug)]
pub struct NoRoom;

// Whether a place has room reserved for so many answers more.
pub fn has_room(answers: &Vec<Answer>, count: usize) -> bool
    ensures { result ≡ has_room (vec_capacity answers.now) (vec_len answers.now) count }
{
    count <= answers.capacity() - answers.len()
}

// Makes the calls in order and adds each answer behind what the place holds; where the place has too little room reserved, it does nothing. No memory is taken.
// A transcript that a new cabinet came to goes on by these calls and their answers, and the law over runs holds of it; so runs chain, each with another type of sheet.
pub fn run<B: Board, S: Sheet>(
    cabinet: &mut Cabinet<B>,
    calls: &[Call<S>],
    answers: &mut Vec<Answer>,
) -> Result<(), NoRoom>
    ensures made { is_ok result ≡ has_room (vec_capacity answers.old) (vec_len answers.old) (length calls.now) }
    ensures kept { take (vec_len answers.old) answers.new.items ≡ answers.old.items }
    ensures replies { replies_behind (vec_len answers.old) answers.new.items ≡ replies_given (has_room (vec_capacity answers.old) (vec_len answers.old) (length calls.now)) (books_of B.meaning cabinet.old) (map (asked S.tariff) calls.now) }
    ensures after { books_of B.meaning cabinet.new ≡ books_left (has_room (vec_capacity answers.old) (vec_len answers.old) (length calls.now)) (books_of B.meaning cabinet.old) (map (asked S.tariff) calls.now) }
    ensures reserved { vec_capacity answers.new ≡ vec_capacity answers.old }
    ensures reached { ReachedRun (books_of B.meaning cabinet.old) (map (asked S.tariff) calls.now) (replies_behind (vec_len answers.old) answers.new.items) (books_of B.meaning cabinet.new) }
    ensures lawful { LawfulRun (books_of B.meaning cabinet.old) (map (asked S.tariff) calls.now) (replies_behind (vec_len answers.old) answers.new.items) (books_of B.meaning cabinet.new) }
{
    if !has_room(answers, calls.len()) {
        return Err(NoRoom);
    }
    for call in calls {
        answers.push_reserved(apply(cabinet, call));
    }
    Ok(())
}
