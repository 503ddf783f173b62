// Bytes in hexadecimal digits.
ghost use Rattle.std.specs.Prelude.{◌≡◌, ◌<◌, IfOk};
ghost use Rattle.words.specs.Hex.{is_hex_digit, digit_of, byte_of, is_hex, bytes_of};

use crate::word::is_word;
use std::alloc::{AllocError, Global};

// Whether a byte is a hexadecimal digit, of either case.
fn is_hex_digit(byte: u8) -> bool
    ensures { result ≡ is_hex_digit byte }
{
    byte.is_ascii_hexdigit()
}

// The value of a hexadecimal digit, and 0 for any other byte.
// By ranges, since the library gives a digit's value for a character alone.
fn digit_of(byte: u8) -> u8
    ensures value { result ≡ digit_of byte }
    ensures bound { result < 16 }
{
    match byte {
        b'0'..=b'9' => byte - b'0',
        b'a'..=b'f' => byte - b'a' + 10,
        b'A'..=b'F' => byte - b'A' + 10,
        _ => 0,
    }
}

// The byte of two hexadecimal digits.
pub fn hex_byte(high: u8, low: u8) -> u8
    ensures { result ≡ byte_of high low }
{
    16 * digit_of(high) + digit_of(low)
}

// Whether a word stands for bytes: `-` for none, or two hexadecimal digits for each. Where no word stands, nothing stands for bytes.
pub fn is_hex(word: &[u8]) -> bool
    ensures { result ≡ is_hex word.now }
{
    if is_word(word, b"-") {
        return true;
    }
    !word.is_empty() && word.len() % 2 == 0 && word.iter().all(|byte| is_hex_digit(*byte))
}

// The bytes that a text of hexadecimal digits stands for.
pub fn unhex(heap: Global, text: &[u8]) -> Result<Vec<u8>, AllocError>
    ensures { IfOk result (λ v. v.items ≡ bytes_of text.now) }
{
    let (pairs, _) = text.as_chunks::<2>();
    pairs
        .iter()
        .map(|[high, low]| hex_byte(*high, *low))
        .collect(heap)
}
