// What single words of an answer stand for.
ghost use Rattle.std.specs.Prelude.{◌≡◌, ◌+◌, ◌*◌, ◌<◌, length};
ghost use Rattle.words.specs.Hex.{byte_at};
ghost use Rattle.answerwords.specs.Words.{below_zero, signed_of, state_of, layer_of, row_of};

use refusal::Layer;
use std::array;
use words::{hex_byte, is_hex, number};

// The number that lies n below zero; zero lies not below itself.
fn below_zero(n: u64) -> Option<i64>
    ensures { result ≡ below_zero n }
{
    if n == 0 {
        return None;
    }
    0i64.checked_sub_unsigned(n)
}

// The number that a word is, with `-` before one below zero.
pub fn signed_number(word: &[u8]) -> Option<i64>
    ensures { result ≡ signed_of word.now }
{
    match word {
        [b'-', digits @ ..] => below_zero(number(digits)?),
        _ => i64::try_from(number(word)?).ok(),
    }
}

// The number of an account's state.
#[tactic(auto, using(words::proofs::Names::word_or_not))]
pub fn state_of(word: &[u8]) -> Option<u64>
    ensures { result ≡ state_of word.now }
{
    match word {
        b"running" => Some(1),
        b"ready" => Some(2),
        _ => None,
    }
}

// The layer that a word names.
#[tactic(auto, using(words::proofs::Names::word_or_not))]
pub fn layer_of(word: &[u8]) -> Option<Layer>
    ensures { result ≡ layer_of word.now }
{
    match word {
        b"board" => Some(Layer::Board),
        b"ledger" => Some(Layer::Ledger),
        b"cabinet" => Some(Layer::Cabinet),
        b"sheet" => Some(Layer::Sheet),
        b"rating" => Some(Layer::Rating),
        _ => None,
    }
}

// 128 bytes in hexadecimal digits.
pub fn row_of(word: &[u8]) -> Option<[u8; 128]>
    ensures { result ≡ row_of word.now }
{
    if !is_hex(word) || word.len() != 256 {
        return None;
    }
    Some(array::from_fn(
        |i|
            requires { 2 * i + 1 < length word.now }
            ensures { result ≡ byte_at word.entry.now i }
        { hex_byte(word[2 * i], word[2 * i + 1]) },
    ))
}
