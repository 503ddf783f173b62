// Making a board over memory that is taken for it.
ghost use Rattle.std.specs.Prelude.{◌≡◌, vec_len, MatchResult};
ghost use Rattle.facts.specs.Forms.{made};
ghost use Rattle.boards.specs.Boards.{board_meaning};
ghost use Rattle.boards.specs.Makings.{found_memory, table_made, journal_made};
ghost use Rattle.boards.specs.declared.making.NotMade.TheVariants.{Refused as RefusedBy, NoMemory as WantOfMemory};

use crate::any::AnyBoard;
use board::BoardFault;
use journal::JournalPlan;
use std::alloc::{AllocError, Global};
use table::TablePlan;

// Why no board is made: the check refused its figures, or no memory was found for it.
#[derive(Clone, Copy)]
pub enum NotMade {
    Refused(BoardFault),
    NoMemory,
}

impl From<BoardFault> for NotMade {
    ghost from_gives = { λ b n. n ≡ RefusedBy b };

    fn from(value: BoardFault) -> NotMade {
        NotMade::Refused(value)
    }
}

impl From<AllocError> for NotMade {
    ghost from_gives = { λ _ n. n ≡ WantOfMemory };

    fn from(_value: AllocError) -> NotMade {
        NotMade::NoMemory
    }
}

// The most bytes that are taken for one board. No table uses more than 528,384 and no journal more than 8,585,215. A larger memory may be promised by a system that does not have it and ends the program when it is written.
const MOST: u64 = 268_435_456;

// Memory of a length.
fn memory(heap: Global, len: u64) -> Result<Vec<u8>, NotMade>
    ensures { MatchResult result (λ v. vec_len v ≡ len) (λ e. e ≡ WantOfMemory) }
{
    if len > MOST {
        return Err(NotMade::NoMemory);
    }
    Ok(vec![in heap; 0u8; len as usize]?)
}

// Each making has the figures of its own kind, so that one for both would take a plan of either kind and be no shorter.
impl AnyBoard {
    // A new table board without rows, over memory of so many bytes. Refused by 22 before memory is asked for.
    pub fn table(heap: Global, capacity: u64, length: u64) -> Result<AnyBoard, NotMade>
        ensures { made board_meaning result ≡ table_made (found_memory result) capacity length }
    {
        TablePlan::check(capacity, length)?;
        let plan = TablePlan::new(capacity, memory(heap, length)?).map_err(|refused| refused.0)?;
        Ok(AnyBoard::Table(plan.make()))
    }

    // A new journal board without rows, over memory of so many bytes. Refused by 22 before memory is asked for.
    pub fn journal(
        heap: Global,
        capacity: u64,
        limit: u64,
        length: u64,
    ) -> Result<AnyBoard, NotMade>
        ensures { made board_meaning result ≡ journal_made (found_memory result) capacity limit length }
    {
        JournalPlan::check(capacity, limit, length)?;
        let memory = memory(heap, length)?;
        let plan = JournalPlan::new(capacity, limit, memory).map_err(|refused| refused.0)?;
        Ok(AnyBoard::Journal(plan.make()))
    }
}
