// Gathering the numbers of a line.
ghost use Rattle.std.specs.Prelude.{◌≡◌};
ghost use Rattle.words.specs.Numbers.{numbers_of};

use crate::digits::number;
use crate::list::Numbers;
use crate::word::split_word;

// The numbers of a line that has nothing but numbers, at most 26 of them.
// What is left of the line is taken on from word to word, since a word ends where the next one may begin.
pub fn all_numbers(line: &[u8]) -> Option<Numbers>
    ensures { result ≡ numbers_of 26 line.now }
{
    let mut numbers = Numbers::new();
    let mut rest = line;
    loop {
        let (word, behind) = split_word(rest);
        if word.is_empty() {
            return Some(numbers);
        }
        numbers.push(number(word)?).ok()?;
        rest = behind;
    }
}
