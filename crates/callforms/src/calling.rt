// Lines that call a cabinet: what stands behind their first word.
ghost use Rattle.std.specs.Prelude.{◌≡◌};
ghost use Rattle.callforms.specs.Calls.{account_in, post_in, open_in, read_in, settle_in, pay_in, call_in};

use lineforms::{CallVerb, SheetName, indices_in, opening_in, sheet_of};
use run::Call;
use words::{all_numbers, number, split_word};

// The account that a text names, where it is one number.
pub fn account_in(text: &[u8]) -> Option<u64>
    ensures { result ≡ account_in text.now }
{
    let numbers = all_numbers(text)?;
    match numbers.as_slice() {
        [account] => Some(*account),
        _ => None,
    }
}

// `post S MX NC`
fn post_in(rest: &[u8]) -> Option<Call<SheetName>>
    ensures { result ≡ post_in rest.now }
{
    let numbers = all_numbers(rest)?;
    match numbers.as_slice() {
        [s, mx, nc] => Some(Call::Post {
            s: *s,
            mx: *mx,
            nc: *nc,
        }),
        _ => None,
    }
}

// `open ACCOUNT CLASS MARKS P X K0..K5 FIRST I0..I11`
fn open_in(rest: &[u8]) -> Option<Call<SheetName>>
    ensures { result ≡ open_in rest.now }
{
    let (word, behind) = split_word(rest);
    Some(Call::Open {
        number: number(word)?,
        form: opening_in(behind)?,
    })
}

// `read ACCOUNT I0..I11`
fn read_in(rest: &[u8]) -> Option<Call<SheetName>>
    ensures { result ≡ read_in rest.now }
{
    let (word, behind) = split_word(rest);
    Some(Call::Read {
        number: number(word)?,
        indices: indices_in(behind)?,
    })
}

// `settle ACCOUNT END SHEET`
fn settle_in(rest: &[u8]) -> Option<Call<SheetName>>
    ensures { result ≡ settle_in rest.now }
{
    let (account, behind) = split_word(rest);
    let (end, behind) = split_word(behind);
    let (sheet, behind) = split_word(behind);
    if !split_word(behind).0.is_empty() {
        return None;
    }
    Some(Call::Settle {
        number: number(account)?,
        end: number(end)?,
        sheet: sheet_of(sheet)?,
    })
}

// `pay ACCOUNT AMOUNT`
fn pay_in(rest: &[u8]) -> Option<Call<SheetName>>
    ensures { result ≡ pay_in rest.now }
{
    let numbers = all_numbers(rest)?;
    match numbers.as_slice() {
        [account, cents] => Some(Call::Pay {
            number: *account,
            cents: *cents,
        }),
        _ => None,
    }
}

// The call on a cabinet that a verb and the text behind it ask for.
pub fn call_in(verb: CallVerb, rest: &[u8]) -> Option<Call<SheetName>>
    ensures { result ≡ call_in verb rest.now }
{
    match verb {
        CallVerb::Post => post_in(rest),
        CallVerb::Open => open_in(rest),
        CallVerb::Read => read_in(rest),
        CallVerb::Settle => settle_in(rest),
        CallVerb::Pay => pay_in(rest),
        CallVerb::Close => account_in(rest).map(|number| Call::Close { number }),
        CallVerb::Show => account_in(rest).map(|number| Call::Show { number }),
    }
}
