// Reading a line.
ghost use Rattle.std.specs.Prelude.{◌≡◌};
ghost use Rattle.std.specs.Option.{option_map};
ghost use Rattle.words.specs.Words.{word_of};
ghost use Rattle.scriptlines.specs.Lines.{said, rating_in, house_in, price_in, choose_in, is_row_text, store_in, asked, line_with, line_of};
ghost use Rattle.scriptlines.specs.Saying.{SaidBy};

use crate::line::Line;
use callforms::{account_in, board_in, call_in};
use lineforms::{Verb, facts_in, sheet_of, verb_of};
use words::{all_numbers, is_hex, number, split_word};

// `rating NETWORK AMPERE`
fn rating<'a>(rest: &'a [u8]) -> Option<Line<&'a [u8]>>
    ensures { option_map said result ≡ rating_in rest.now }
{
    let numbers = all_numbers(rest)?;
    match numbers.as_slice() {
        [network, ampere] => Some(Line::Rating {
            network: *network,
            ampere: *ampere,
        }),
        _ => None,
    }
}

// `house HEX`
fn house<'a>(rest: &'a [u8]) -> Option<Line<&'a [u8]>>
    ensures { option_map said result ≡ house_in rest.now }
{
    let (text, behind) = split_word(rest);
    if !is_hex(text) || !split_word(behind).0.is_empty() {
        return None;
    }
    Some(Line::House(text))
}

// `price SHEET CODE ..`
fn price<'a>(rest: &'a [u8]) -> Option<Line<&'a [u8]>>
    ensures { option_map said result ≡ price_in rest.now }
{
    let (sheet, behind) = split_word(rest);
    let (code, behind) = split_word(behind);
    Some(Line::Price {
        sheet: sheet_of(sheet)?,
        code: number(code)?,
        facts: facts_in(behind)?,
    })
}

// `choose SHEET ..`
fn choose<'a>(rest: &'a [u8]) -> Option<Line<&'a [u8]>>
    ensures { option_map said result ≡ choose_in rest.now }
{
    let (sheet, behind) = split_word(rest);
    Some(Line::Choose {
        sheet: sheet_of(sheet)?,
        facts: facts_in(behind)?,
    })
}

// Whether a text is a row's 128 bytes, two hexadecimal digits for each.
fn is_row_text(text: &[u8]) -> bool
    ensures { result ≡ is_row_text text.now }
{
    text.len() == 256 && is_hex(text)
}

// `store ACCOUNT HEX`
fn store<'a>(rest: &'a [u8]) -> Option<Line<&'a [u8]>>
    ensures { option_map said result ≡ store_in rest.now }
{
    let (account, behind) = split_word(rest);
    let (text, behind) = split_word(behind);
    let account = number(account)?;
    if !is_row_text(text) || !split_word(behind).0.is_empty() {
        return None;
    }
    Some(Line::Store {
        number: account,
        text,
    })
}

// What a line asks for by its verb and what stands behind it, none where it is of no form.
// Lines are made by `Some(..?)`, since a line borrows from the text, and a function that makes one cannot be handed to `map`.
// Not put into its callers, so that a line without a word is not charged with the room that one with facts takes.
#[inline(never)]
fn ask<'a>(verb: Verb, rest: &'a [u8]) -> Option<Line<&'a [u8]>>
    ensures { option_map said result ≡ asked verb rest.now }
{
    match verb {
        Verb::Rating => rating(rest),
        Verb::House => house(rest),
        Verb::Price => price(rest),
        Verb::Choose => choose(rest),
        Verb::Board => Some(Line::Board(board_in(rest)?)),
        Verb::Row => Some(Line::Row(account_in(rest)?)),
        Verb::Store => store(rest),
        Verb::Clear => Some(Line::Clear(account_in(rest)?)),
        Verb::Call(call) => Some(Line::Call(call_in(call, rest)?)),
    }
}

// What a line asks for by its first word and what stands behind it.
fn line_with<'a>(word: &[u8], rest: &'a [u8]) -> Line<&'a [u8]>
    ensures { said result ≡ line_with word.now rest.now }
{
    if let [] | [b'#', ..] = word {
        return Line::Silent;
    }
    let Some(verb) = verb_of(word) else {
        return Line::Unreadable;
    };
    match ask(verb, rest) {
        Some(line) => line,
        None => Line::Unreadable,
    }
}

// What a line asks for, nothing but what its first word says.
pub fn read_line<'a>(line: &'a [u8]) -> Line<&'a [u8]>
    ensures value { said result ≡ line_of line.now }
    ensures says { SaidBy (word_of line.now) (said result) }
{
    let (word, rest) = split_word(line);
    line_with(word, rest)
}
