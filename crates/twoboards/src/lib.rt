// One estate on two boards side by side: a cabinet on a table board and one on a journal board, which always mean the same.
#![tactic(auto)]

mod agreement;
mod pair;

pub use agreement::is_alike;
pub use pair::Pair;
pub use pair::making::{NoPair, journal_length};
