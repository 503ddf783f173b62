// One call made through a run.
ghost use Rattle.std.specs.Prelude.{◌≡◌, Some};
ghost use Rattle.std.specs.Option.{option_map};
ghost use Rattle.boards.specs.Boards.{board_meaning};
ghost use Rattle.sheets.specs.Named.{tariff_of};
ghost use Rattle.cabinet.specs.Books.{books_of};
ghost use Rattle.law.specs.Transcript.{reply_of, after_of};
ghost use Rattle.run.specs.Asked.{asked, told};
ghost use Rattle.bench.specs.Deeds.{GoesOn};

use crate::place::Place;
use boards::AnyBoard;
use cabinet::Cabinet;
use run::{Answer, Call, run};
use sheets::AnySheet;
use std::alloc::{AllocError, Global};

impl Place {
    // A place with room for one answer.
    pub(crate) fn new(heap: Global) -> Result<Place, AllocError> {
        let answers = Vec::with_capacity(heap, 1)?;
        Ok(Place { answers })
    }

    // Makes one call, as a run of it alone, and answers what it was answered.
    pub(crate) fn ask(
        &mut self,
        cabinet: &mut Cabinet<AnyBoard>,
        call: Call<AnySheet>,
    ) -> Option<Answer>
        ensures answer { option_map told result ≡ Some (reply_of (books_of board_meaning cabinet.old) (asked tariff_of call)) }
        ensures after { books_of board_meaning cabinet.new ≡ after_of (books_of board_meaning cabinet.old) (asked tariff_of call) }
        ensures lawful { GoesOn (books_of board_meaning cabinet.old) (asked tariff_of call) (option_map told result) (books_of board_meaning cabinet.new) }
    {
        let _ = run(cabinet, &[call], &mut self.answers);
        self.answers.pop()
    }
}
