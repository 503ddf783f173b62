// Lines that make a board.
ghost use Rattle.std.specs.Prelude.{◌≡◌, None};
ghost use Rattle.answers.specs.Tells.{had_memory, lines_read};
ghost use Rattle.bench.specs.Stands.{stand_of};
ghost use Rattle.bench.specs.Makings.{make_after};
ghost use Rattle.benchlines.specs.Answers.{board_line_answer, StartsMade};

use answers::Answer;
use bench::Bench;
use boards::NotMade;
use callforms::BoardForm;
use std::alloc::Global;

// `board ..`
pub fn board_answer(heap: Global, form: BoardForm, bench: &mut Bench) -> Answer
    ensures answer { result ≡ board_line_answer (had_memory result) form }
    ensures after { stand_of bench.new ≡ make_after (had_memory result) form (stand_of bench.old) }
    ensures starts { StartsMade result (stand_of bench.new) }
    ensures unmoved { lines_read result ≡ None }
{
    match bench.make(heap, form) {
        Ok((capacity, limit)) => Answer::Made(capacity, limit),
        Err(NotMade::Refused(fault)) => Answer::Refused(fault.into()),
        Err(NotMade::NoMemory) => Answer::NoMemory,
    }
}
