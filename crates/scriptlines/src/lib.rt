// The lines of a replay script.
#![tactic(auto)]

mod line;
mod reading;

pub use callforms::BoardForm;
pub use line::Line;
pub use lineforms::SheetName;
pub use reading::read_line;
