// Words: what stands between blanks.
ghost use Rattle.std.specs.Prelude.{◌≡◌, ◌≤◌, length};
ghost use Rattle.words.specs.Words.{is_blank, is_word, span_of, word_of, rest_of};

// Words are parted by spaces and tabs.
fn is_blank(byte: u8) -> bool
    ensures { result ≡ is_blank byte }
{
    matches!(byte, b' ' | b'\t')
}

// How many bytes at the front are blank, or are not.
fn span(bytes: &[u8], blank: bool) -> usize
    ensures value { result ≡ span_of blank bytes.now }
    ensures bound { result ≤ length bytes.now }
{
    bytes
        .iter()
        .position(|byte| is_blank(*byte) != blank)
        .unwrap_or(bytes.len())
}

// The first word of a line, empty where there is none, and what stands behind it.
pub fn split_word(line: &[u8]) -> (&[u8], &[u8])
    ensures word { result.0.now ≡ word_of line.now }
    ensures rest { result.1.now ≡ rest_of line.now }
{
    let (_, text) = line.split_at(span(line, true));
    text.split_at(span(text, false))
}

// Whether a word is the one of this name.
pub fn is_word(word: &[u8], name: &[u8]) -> bool
    ensures { result ≡ is_word word.now name.now }
{
    word == name
}
