// No refusal without its cause: why a call on a cabinet is refused, told from the calls made before and their answers.
#![tactic(auto)]

ghost use Rattle.std.specs.Prelude.{◌≡◌};
ghost use Rattle.cabinet.specs.Books.{books_of};
ghost use Rattle.law.specs.Transcript.{reply_of, after_of};
ghost use Rattle.run.specs.Asked.{asked, told};
ghost use Rattle.recall.specs.Recall.{Recalled};
ghost use Rattle.causes.specs.Caused.{CausedAt, Causes-stand};

use board::Board;
use cabinet::Cabinet;
use run::{Answer, Call};
use sheet::Sheet;

// Makes one call. After every transcript that a new cabinet came to, it is accepted exactly if none of its causes stands, and else refused by the first that does, with that cause's number, layer and place. What an accepted call leaves at its number is what the next showing of it tells.
pub fn make_call<B: Board, S: Sheet>(cabinet: &mut Cabinet<B>, call: &Call<S>) -> Answer
    ensures answer { told result ≡ reply_of (books_of B.meaning cabinet.old) (asked S.tariff call.now) }
    ensures after { books_of B.meaning cabinet.new ≡ after_of (books_of B.meaning cabinet.old) (asked S.tariff call.now) }
    ensures recalled { Recalled (books_of B.meaning cabinet.old) (asked S.tariff call.now) (told result) (books_of B.meaning cabinet.new) }
    ensures caused { CausedAt (books_of B.meaning cabinet.old) (asked S.tariff call.now) (told result) }
{
    recall::make_call(cabinet, call)
}

// After every list of calls on a new cabinet, on every board that keeps the board's meaning and held no rows: a call is accepted exactly if none of its causes stands, and else refused by the first that does, with its number, its layer and its place. The causes are told from the calls and answers before, and from the board's capacity and limit; 17 is never among them.
pub fn causes_stand()
    ensures { Causes-stand }
{}
