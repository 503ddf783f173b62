// A cabinet, and how it is made.
ghost use Rattle.std.specs.Prelude.{◌≡◌, [], IfOk};
ghost use Rattle.months.specs.Posted.{posted_of};

use board::Board;
use ledger::Ledger;
use months::Months;
use std::alloc::{AllocError, Global};

// A cabinet: the months posted to it, and the accounts that its board keeps as rows.
#[derive(Drop)]
pub struct Cabinet<B> {
    months: Months,
    ledger: Ledger<B>,
}

impl<B> Cabinet<B> {
    // A cabinet of months, whose memory was taken when they were made, and a board, both as they stand.
    pub fn with(months: Months, board: B) -> Cabinet<B>
        ensures { (posted_of result.months ≡ posted_of months) × (result.ledger.board ≡ board) }
    {
        Cabinet {
            months,
            ledger: Ledger::new(board),
        }
    }
}

impl<B: Drop> Cabinet<B> {
    // A cabinet over a board as it stands, with no month posted. All the memory that its calls will need is taken here.
    pub fn new(heap: Global, board: B) -> Result<Cabinet<B>, AllocError>
        ensures { IfOk result (λ c. (posted_of c.months ≡ []) × (c.ledger.board ≡ board)) }
    {
        Ok(Cabinet::with(Months::new(heap)?, board))
    }

    // The board as it stands, with the accounts' rows.
    pub fn board(&self) -> &B
        ensures { result.now ≡ self.now.ledger.board }
    {
        self.ledger.board()
    }
}

mod calls;
