// The numbers at the front of a text.
ghost use Rattle.std.specs.Prelude.{◌≡◌};
ghost use Rattle.std.specs.Option.{option_map};
ghost use Rattle.words.specs.Numbers.{is_end};
ghost use Rattle.answerwords.specs.Front.{front_of, seen, exactly};

use words::{number, split_word};

// Whether no word is left.
pub fn is_end(text: &[u8]) -> bool
    ensures { result ≡ is_end text.now }
{
    split_word(text).0.is_empty()
}

// The first N words as numbers, and what stands behind them.
pub fn leading_numbers<const N: usize>(text: &[u8]) -> Option<([u64; N], &[u8])>
    ensures { option_map seen result ≡ front_of N text.now }
{
    let mut numbers = [0; N];
    let mut rest = text;
    // By index, since a proof keeps no value of the places that an array lends.
    for i in 0..N {
        let (word, behind) = split_word(rest);
        numbers[i] = number(word)?;
        rest = behind;
    }
    Some((numbers, rest))
}

// The numbers of a text that has N numbers and nothing else.
pub fn exact_numbers<const N: usize>(text: &[u8]) -> Option<[u64; N]>
    ensures { result ≡ exactly N text.now }
{
    match leading_numbers::<N>(text) {
        Some(front) if is_end(front.1) => Some(front.0),
        _ => None,
    }
}
