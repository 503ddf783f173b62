// One call made.
ghost use Rattle.std.specs.Prelude.{◌≡◌};
ghost use Rattle.cabinet.specs.Books.{books_of};
ghost use Rattle.law.specs.Transcript.{paying, showing, reply_of, after_of};
ghost use Rattle.run.specs.Asked.{asked, told, told_by};

use crate::answer::Answer;
use crate::call::Call;
use account::{Account, State};
use board::Board;
use cabinet::{Cabinet, CabinetFault};
use facts::{Class, Kind, Marks, Profile};
use sheet::Sheet;

// An account with nothing in it, as the place that a showing copies into.
fn blank() -> Account {
    let marks = Marks {
        two_rate: false,
        extension: false,
        protected: false,
    };
    let profile = Profile {
        class: Class::Residential,
        marks,
        power: 1,
        exempt: 0,
        kinds: [Kind::Unused; 6],
    };
    Account {
        state: State::Running,
        profile,
        next: 0,
        indices: [0; 12],
        waiting: [0; 12],
        balance: 0,
    }
}

// Takes a payment for the account of a number.
fn pay<B: Board>(cabinet: &mut Cabinet<B>, number: u64, cents: u64) -> Result<Answer, CabinetFault>
    ensures answer { told_by result ≡ reply_of (books_of B.meaning cabinet.old) (paying number cents) }
    ensures after { books_of B.meaning cabinet.new ≡ after_of (books_of B.meaning cabinet.old) (paying number cents) }
{
    cabinet.pay(number, cents)?;
    Ok(Answer::Done)
}

// Shows the account of a number.
fn show<B: Board>(cabinet: &mut Cabinet<B>, number: u64) -> Result<Answer, CabinetFault>
    ensures answer { told_by result ≡ reply_of (books_of B.meaning cabinet.old) (showing number) }
    ensures after { books_of B.meaning cabinet.new ≡ after_of (books_of B.meaning cabinet.old) (showing number) }
{
    let mut place = blank();
    if cabinet.show(number, &mut place)? {
        Ok(Answer::Shown(place))
    } else {
        Ok(Answer::Vacant)
    }
}

// Makes one call, which the cabinet accepts or not.
fn outcome<B: Board, S: Sheet>(
    cabinet: &mut Cabinet<B>,
    call: &Call<S>,
) -> Result<Answer, CabinetFault>
    ensures answer { told_by result ≡ reply_of (books_of B.meaning cabinet.old) (asked S.tariff call.now) }
    ensures after { books_of B.meaning cabinet.new ≡ after_of (books_of B.meaning cabinet.old) (asked S.tariff call.now) }
{
    match call {
        Call::Post { s, mx, nc } => {
            let (month, ne) = cabinet.post(*s, *mx, *nc)?;
            Ok(Answer::Posted(month, ne))
        }
        Call::Open { number, form } => {
            cabinet.open(*number, form)?;
            Ok(Answer::Done)
        }
        Call::Read { number, indices } => {
            cabinet.read(*number, indices)?;
            Ok(Answer::Done)
        }
        Call::Settle { number, end, sheet } => {
            let bill = cabinet.settle(*number, *end, sheet)?;
            Ok(Answer::Billed(bill))
        }
        Call::Pay { number, cents } => pay(cabinet, *number, *cents),
        Call::Close { number } => {
            cabinet.close(*number)?;
            Ok(Answer::Done)
        }
        Call::Show { number } => show(cabinet, *number),
    }
}

// Makes one call.
pub fn apply<B: Board, S: Sheet>(cabinet: &mut Cabinet<B>, call: &Call<S>) -> Answer
    ensures answer { told result ≡ reply_of (books_of B.meaning cabinet.old) (asked S.tariff call.now) }
    ensures after { books_of B.meaning cabinet.new ≡ after_of (books_of B.meaning cabinet.old) (asked S.tariff call.now) }
{
    outcome(cabinet, call).unwrap_or_else(|fault| Answer::Refused(fault.into()))
}
