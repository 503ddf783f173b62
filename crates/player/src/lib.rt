// Playing a script: it is read line by line, and each line is answered.
#![tactic(auto)]

ghost use Rattle.std.specs.Prelude.{◌≡◌, ℕ, List, Some, Option, codes};
ghost use Rattle.answers.specs.declared.answer.Answer.{Answer as AnswerTo};
ghost use Rattle.player.specs.LineEnds.{without_end};

use answers::Answer;
use std::alloc::Global;
use std::io::{BufRead, BufReader, BufWriter, ErrorKind, Write};
use std::{fmt, io};

// What a script is played on: it answers line by line, and a line may move it.
pub trait Answering {
    // what answers before a line, the text of the line, its answer, and what answers after it
    ghost answer_text_gives: { Self → List ℕ → Option AnswerTo → Self → Type 0 };

    // What the text of a line is answered, without its line feed, none where the line is silent.
    fn answer_text(&mut self, heap: Global, text: &[u8]) -> Option<Answer>
        ensures { answer_text_gives self.old text.now result self.new };
}

// The same with a type of answers of its own, which takes less time to move where it has less room than an `Answer`.
pub trait Telling {
    // the answer to a line
    type Told: fmt::Display + Drop;

    // what answers before a line, the text of the line, its answer, and what answers after it
    ghost tell_text_gives: { Self → List ℕ → Option Self.Told → Self → Type 0 };

    // What the text of a line is answered, without its line feed, none where the line is silent.
    fn tell_text(&mut self, heap: Global, text: &[u8]) -> Option<Self::Told>
        ensures { tell_text_gives self.old text.now result self.new };

    // What a line is answered for which no memory was found.
    fn no_memory() -> Self::Told
        ensures { Self.Told.output result ≡ Some (codes "no-memory") };
}

// A `&mut` to what has `Answering` tells the same answers.
impl<On: Answering> Telling for &mut On {
    type Told = Answer;

    ghost tell_text_gives = { λ before text a after. On.answer_text_gives before.now text a after.now };

    fn tell_text(&mut self, heap: Global, text: &[u8]) -> Option<Answer> {
        (**self).answer_text(heap, text)
    }

    fn no_memory() -> Answer {
        Answer::NoMemory
    }
}

// What comes next of a script.
// Three states, and no value in any: the line stands in the place that it was read into.
enum Next {
    Line,
    // a line for which no memory was found
    TooLong,
    End,
}

// A line without the line feed at its end.
fn without_end(line: &[u8]) -> &[u8]
    ensures { result.now ≡ without_end line.now }
{
    match line {
        [text @ .., b'\n'] => text,
        _ => line,
    }
}

// Reads the next line in place of what was there before. Of one that is too long for the memory nothing is kept.
fn next_line<In: BufRead>(input: &mut In, line: &mut Vec<u8>) -> io::Result<Next> {
    let mut whole = true;
    for _ in 0..u64::MAX {
        line.clear();
        match input.read_until(b'\n', line) {
            Ok(_) if !whole => return Ok(Next::TooLong),
            Ok(0) => return Ok(Next::End),
            Ok(_) => return Ok(Next::Line),
            Err(error) => {
                if error.kind() != ErrorKind::OutOfMemory || line.is_empty() {
                    return Err(error);
                }
                whole = false;
            }
        }
    }
    Ok(Next::End)
}

// Reads a script to its end, and writes the answer to each line in turn.
fn play_lines<On: Telling, In: BufRead, Out: Write>(
    heap: Global,
    on: &mut On,
    input: &mut In,
    output: &mut Out,
) -> io::Result<()> {
    let mut line = Vec::new(heap);
    for _ in 0..u64::MAX {
        let answer = match next_line(input, &mut line)? {
            Next::Line => on.tell_text(heap, without_end(line.as_slice())),
            Next::TooLong => Some(On::no_memory()),
            Next::End => return output.flush(),
        };
        if let Some(answer) = answer {
            writeln!(output, "{answer}")?;
        }
    }
    output.flush()
}

// Plays the script on standard input, with the answers on standard output.
pub fn play<On: Answering>(rt: &HostRuntime, on: &mut On) -> io::Result<()> {
    let mut lent = on;
    play_telling(rt, &mut lent)
}

// The same on what has a type of answers of its own.
pub fn play_telling<On: Telling>(rt: &HostRuntime, on: &mut On) -> io::Result<()> {
    let mut input = BufReader::new(rt.alloc(), rt.stdin())?;
    let mut output = BufWriter::new(rt.alloc(), rt.stdout())?;
    play_lines(rt.alloc(), on, &mut input, &mut output)
}
