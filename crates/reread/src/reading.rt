// Reading an answer back.
ghost use Rattle.std.specs.Prelude.{◌≡◌};
ghost use Rattle.std.specs.Option.{option_map};
ghost use Rattle.reread.specs.Answers.{bare_of, row_answer, behind_of, answer_of};

use crate::form::{account_of, refusal_of};
use crate::numbered::numbered_of;
use answers::Answer;
use answerwords::{is_end, row_of};
use words::split_word;

// The answers that are a word alone.
#[tactic(auto, using(words::proofs::Names::word_or_not))]
fn bare_of(word: &[u8]) -> Option<Answer>
    ensures { result ≡ bare_of word.now }
{
    match word {
        b"not-permitted" => Some(Answer::NotPermitted),
        b"none" => Some(Answer::NoPlan),
        b"done" => Some(Answer::Done),
        b"vacant" => Some(Answer::Vacant),
        b"unreadable" => Some(Answer::Unreadable),
        b"no-memory" => Some(Answer::NoMemory),
        _ => None,
    }
}

// `row HEX`
fn row_answer(rest: &[u8]) -> Option<Answer>
    ensures { result ≡ row_answer rest.now }
{
    let (word, behind) = split_word(rest);
    let bytes = row_of(word)?;
    if !is_end(behind) {
        return None;
    }
    Some(Answer::Row(bytes))
}

// The answer of a first word with others behind it.
#[tactic(auto, using(words::proofs::Names::word_or_not))]
fn behind_of(word: &[u8], rest: &[u8]) -> Option<Answer>
    ensures { result ≡ behind_of word.now rest.now }
{
    match word {
        b"account" => Some(Answer::Account(account_of(rest)?)),
        b"row" => row_answer(rest),
        b"refused" => Some(Answer::Refused(refusal_of(rest)?)),
        _ => numbered_of(word, rest),
    }
}

// The answer that a text is, none where it is no answer.
pub fn read_answer(text: &[u8]) -> Option<Answer>
    ensures { result ≡ answer_of text.now }
{
    let (word, rest) = split_word(text);
    if is_end(rest) {
        return bare_of(word);
    }
    behind_of(word, rest)
}
