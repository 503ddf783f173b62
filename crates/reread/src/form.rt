// The parts of an account and of a refusal, read word by word.
ghost use Rattle.std.specs.Prelude.{◌≡◌};
ghost use Rattle.std.specs.Option.{option_map};
ghost use Rattle.answerwords.specs.Front.{seen};
ghost use Rattle.reread.specs.Forms.{profile_of, figures_of, account_of, byte_alone, refusal_of};

use account::AccountForm;
use answerwords::{is_end, layer_of, leading_numbers, signed_number, state_of};
use facts::ProfileForm;
use refusal::Refusal;
use words::{number, split_word};

// The ten numbers of a profile, and what stands behind them.
fn profile_of(text: &[u8]) -> Option<(ProfileForm, &[u8])>
    ensures { option_map seen result ≡ profile_of text.now }
{
    let ([class, marks, power, exempt], rest) = leading_numbers::<4>(text)?;
    let (kinds, rest) = leading_numbers::<6>(rest)?;
    let profile = ProfileForm {
        class,
        marks,
        power,
        exempt,
        kinds,
    };
    Some((profile, rest))
}

// The registers and the balance at the end of an account.
fn figures_of(state: u64, profile: ProfileForm, next: u64, text: &[u8]) -> Option<AccountForm>
    ensures { result ≡ figures_of state profile next text.now }
{
    let (indices, rest) = leading_numbers::<12>(text)?;
    let (waiting, rest) = leading_numbers::<12>(rest)?;
    let (word, rest) = split_word(rest);
    let balance = signed_number(word)?;
    if !is_end(rest) {
        return None;
    }
    Some(AccountForm {
        state,
        profile,
        next,
        indices,
        waiting,
        balance,
    })
}

// `STATE CLASS MARKS P X K0..K5 U I0..I11 W0..W11 BALANCE`
pub fn account_of(text: &[u8]) -> Option<AccountForm>
    ensures { result ≡ account_of text.now }
{
    let (word, rest) = split_word(text);
    let state = state_of(word)?;
    let (profile, rest) = profile_of(rest)?;
    let (word, rest) = split_word(rest);
    let next = number(word)?;
    figures_of(state, profile, next, rest)
}

// A number that is a byte.
fn byte_alone(n: u64) -> Option<u8>
    ensures { result ≡ byte_alone n }
{
    u8::try_from(n).ok()
}

// `NUMBER LAYER PLACE`
pub fn refusal_of(text: &[u8]) -> Option<Refusal>
    ensures { result ≡ refusal_of text.now }
{
    let (word, rest) = split_word(text);
    let code = byte_alone(number(word)?)?;
    let (word, rest) = split_word(rest);
    let layer = layer_of(word)?;
    let (word, rest) = split_word(rest);
    let place = number(word)?;
    if !is_end(rest) {
        return None;
    }
    Some(Refusal {
        number: code,
        layer,
        place,
    })
}
