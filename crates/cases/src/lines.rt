// The cases as lines of text.
ghost use Rattle.std.specs.Prelude.{◌≡◌, map, IfOk, string_bytes};
ghost use Rattle.cases.specs.Answering.{answer_of, answered, line_of, written};
ghost use Rattle.cases.specs.Known.{worked_out, known_results};

use crate::case::Case;
use crate::table::twelve_cases;
use std::alloc::{AllocError, Global};

// A case's line: its number, a space, the last figure of its answer, and a line feed.
fn line_of(heap: Global, case: &Case) -> Result<String, AllocError>
    ensures { IfOk result (λ text. string_bytes text ≡ line_of (case.now.0, answer_of case.now.1)) }
{
    let number = case.0;
    match case.1.answer() {
        Some(answer) => {
            let figure = answer.figure();
            format!(in heap; "{number} {figure}\n")
        }
        None => format!(in heap; "{number} none\n"),
    }
}

// A line for each case.
fn lines(heap: Global, cases: &[Case]) -> Result<String, AllocError>
    ensures { IfOk result (λ text. string_bytes text ≡ written (map answered cases.now)) }
{
    let mut text = String::new(heap);
    for case in cases {
        let line = line_of(heap, case)?;
        text.push_str(line.as_str())?;
    }
    Ok(text)
}

// The twelve known cases, a line each: a case's number and the last figure of what the program's calls answer to it. All twelve answers are those known beforehand.
pub fn twelve_lines(heap: Global) -> Result<String, AllocError>
    ensures lines { IfOk result (λ text. string_bytes text ≡ written worked_out) }
    ensures known { worked_out ≡ known_results }
{
    lines(heap, &twelve_cases())
}
