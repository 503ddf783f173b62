// Why a month is not posted.
ghost use Rattle.std.specs.Prelude.{◌≡◌};
ghost use Rattle.months.specs.Faults.{post_refusal};

use refusal::{Layer, Refusal};

// The cause, with the month that is due.
#[derive(Clone, Copy, PartialEq, Eq, Debug)]
pub enum PostFault {
    // all 1,200 months stand
    AllPosted(u64),
    // a figure outside its limits
    OutsideLimits(u64),
}

// The refusal that a fault is: 1 or 2, and the month due.
impl From<PostFault> for Refusal {
    ghost from_gives = { λ fault refusal. refusal ≡ post_refusal fault };

    fn from(fault: PostFault) -> Refusal {
        let (number, place) = match fault {
            PostFault::AllPosted(due) => (1, due),
            PostFault::OutsideLimits(due) => (2, due),
        };
        Refusal {
            number,
            layer: Layer::Cabinet,
            place,
        }
    }
}
