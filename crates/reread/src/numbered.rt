// The answers that are a word with numbers behind it.
ghost use Rattle.std.specs.Prelude.{◌≡◌};
ghost use Rattle.std.specs.Option.{option_map};
ghost use Rattle.answerwords.specs.Front.{bound, exactly};
ghost use Rattle.reread.specs.Answers.{tenths_of, lines_of, parts_of, plan_of, made_of, posted_of, bill_of, numbered_of};

use answers::Answer;
use answerwords::exact_numbers;
use words::is_word;

// `tenths N`
fn tenths_of(rest: &[u8]) -> Option<Answer>
    ensures { result ≡ bound (exactly 1 rest.now) tenths_of }
{
    let [tenths] = exact_numbers::<1>(rest)?;
    let tenths = u16::try_from(tenths).ok()?;
    Some(Answer::Tenths(tenths))
}

// `lines N`. This and the next four differ in a count and a variant, and the `?` on each count proves at once where a closure handed to `map` leaves a goal.
fn lines_of(rest: &[u8]) -> Option<Answer>
    ensures { result ≡ option_map lines_of (exactly 1 rest.now) }
{
    let [lines] = exact_numbers::<1>(rest)?;
    Some(Answer::Lines(lines))
}

// `parts FIXED ENERGY CENTS`
fn parts_of(rest: &[u8]) -> Option<Answer>
    ensures { result ≡ option_map parts_of (exactly 3 rest.now) }
{
    let [fixed, energy, cents] = exact_numbers::<3>(rest)?;
    Some(Answer::Parts(fixed, energy, cents))
}

// `plan CODE FIXED ENERGY CENTS`
fn plan_of(rest: &[u8]) -> Option<Answer>
    ensures { result ≡ option_map plan_of (exactly 4 rest.now) }
{
    let [code, fixed, energy, cents] = exact_numbers::<4>(rest)?;
    Some(Answer::Plan(code, fixed, energy, cents))
}

// `made C L`
fn made_of(rest: &[u8]) -> Option<Answer>
    ensures { result ≡ option_map made_of (exactly 2 rest.now) }
{
    let [capacity, limit] = exact_numbers::<2>(rest)?;
    Some(Answer::Made(capacity, limit))
}

// `posted MONTH NE`
fn posted_of(rest: &[u8]) -> Option<Answer>
    ensures { result ≡ option_map posted_of (exactly 2 rest.now) }
{
    let [month, ne] = exact_numbers::<2>(rest)?;
    Some(Answer::Posted(month, ne))
}

// `bill CODE M DAY NIGHT FIXED ENERGY CENTS`
fn bill_of(rest: &[u8]) -> Option<Answer>
    ensures { result ≡ option_map bill_of (exactly 7 rest.now) }
{
    let numbers = exact_numbers::<7>(rest)?;
    Some(Answer::Bill(numbers.into()))
}

// The answer of a word with numbers behind it. The words are tried in turn: the proof of a `match` on seven of them takes over ten minutes.
pub fn numbered_of(word: &[u8], rest: &[u8]) -> Option<Answer>
    ensures { result ≡ numbered_of word.now rest.now }
{
    if is_word(word, b"tenths") {
        return tenths_of(rest);
    }
    if is_word(word, b"lines") {
        return lines_of(rest);
    }
    if is_word(word, b"parts") {
        return parts_of(rest);
    }
    if is_word(word, b"plan") {
        return plan_of(rest);
    }
    if is_word(word, b"made") {
        return made_of(rest);
    }
    if is_word(word, b"posted") {
        return posted_of(rest);
    }
    if is_word(word, b"bill") {
        return bill_of(rest);
    }
    None
}
