// How an answer is written.
ghost use Rattle.std.specs.Prelude.{◌≡◌, ◌++◌, Some};
ghost use Rattle.std.specs.Fmt.{WritesOnOk};
ghost use Rattle.answers.specs.Texts.{spaced_all};
ghost use Rattle.answers.specs.Answers.{answer_text, account_text};

use crate::answer::Answer;
use crate::numbers::{Hex, Spaced, StateName};
use account::AccountForm;
use std::fmt;

// `account STATE CLASS ..`
fn put_account<W: fmt::Write>(f: &mut fmt::Formatter<W>, form: &AccountForm) -> fmt::Result
    ensures { WritesOnOk W.write_str_gives f.old result (account_text form.now) f.new }
{
    let profile = form.profile;
    let state = StateName(form.state);
    let powers = [profile.class, profile.marks, profile.power, profile.exempt];
    let powers = Spaced(&powers);
    let kinds = Spaced(&profile.kinds);
    let next = form.next;
    let indices = Spaced(&form.indices);
    let waiting = Spaced(&form.waiting);
    let balance = form.balance;
    write!(
        f,
        "account {state}{powers}{kinds} {next}{indices}{waiting} {balance}"
    )
}

// A word, and numbers behind it.
fn put_numbers<W: fmt::Write>(f: &mut fmt::Formatter<W>, word: &str, numbers: &[u64]) -> fmt::Result
    ensures { WritesOnOk W.write_str_gives f.old result (word.now ++ spaced_all numbers.now) f.new }
{
    let numbers = Spaced(numbers);
    write!(f, "{word}{numbers}")
}

impl fmt::Display for Answer {
    ghost output = { λ a. Some (answer_text a) };

    fn fmt<W: fmt::Write>(&self, f: &mut fmt::Formatter<W>) -> fmt::Result {
        match self {
            Answer::Tenths(tenths) => put_numbers(f, "tenths", &[u64::from(*tenths)]),
            Answer::Lines(lines) => put_numbers(f, "lines", &[*lines]),
            Answer::Parts(fixed, energy, cents) => put_numbers(
                f,
                "parts",
                &[*fixed, *energy, *cents],
            ),
            Answer::NotPermitted => f.write_str("not-permitted"),
            Answer::Plan(code, fixed, energy, cents) => put_numbers(
                f,
                "plan",
                &[*code, *fixed, *energy, *cents],
            ),
            Answer::NoPlan => f.write_str("none"),
            Answer::Made(capacity, limit) => put_numbers(f, "made", &[*capacity, *limit]),
            Answer::Posted(month, ne) => put_numbers(f, "posted", &[*month, *ne]),
            Answer::Done => f.write_str("done"),
            Answer::Bill(bill) => put_numbers(f, "bill", &<[u64; 7]>::from(bill)),
            Answer::Account(form) => put_account(f, form),
            Answer::Vacant => f.write_str("vacant"),
            Answer::Row(bytes) => write!(f, "row {}", Hex(bytes)),
            Answer::Refused(refusal) => write!(f, "refused {refusal}"),
            Answer::Unreadable => f.write_str("unreadable"),
            Answer::NoMemory => f.write_str("no-memory"),
        }
    }
}
