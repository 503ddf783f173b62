// What an accepted call leaves at its number is what the next showing of that number tells.
#![tactic(auto)]

ghost use Rattle.std.specs.Prelude.{◌≡◌};
ghost use Rattle.cabinet.specs.Books.{books_of};
ghost use Rattle.law.specs.Transcript.{reply_of, after_of};
ghost use Rattle.run.specs.Asked.{asked, told};
ghost use Rattle.recall.specs.Recall.{Recalled, Recall-stands};

use board::Board;
use cabinet::Cabinet;
use run::{Answer, Call, apply};
use sheet::Sheet;

// Makes one call. If it is accepted, what it leaves at its number, an account or none, is what a showing of that number tells from then on, whatever postings, showings, refused calls and calls on other numbers come between; and this whatever months were posted and whatever rows the board held before.
pub fn make_call<B: Board, S: Sheet>(cabinet: &mut Cabinet<B>, call: &Call<S>) -> Answer
    ensures answer { told result ≡ reply_of (books_of B.meaning cabinet.old) (asked S.tariff call.now) }
    ensures after { books_of B.meaning cabinet.new ≡ after_of (books_of B.meaning cabinet.old) (asked S.tariff call.now) }
    ensures recalled { Recalled (books_of B.meaning cabinet.old) (asked S.tariff call.now) (told result) (books_of B.meaning cabinet.new) }
{
    apply(cabinet, call)
}

// The same of every call on every board, as a theorem.
pub fn recall_stands()
    ensures { Recall-stands }
{}
