// Calls on a cabinet as data, made one after the other, and what they were answered.
#![tactic(auto)]

mod answer;
mod applying;
mod call;
mod running;

pub use answer::Answer;
pub use applying::apply;
pub use call::Call;
pub use running::{NoRoom, has_room, run};
