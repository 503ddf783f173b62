// The answers to the pricing lines of a script, from the house sheet alone.
#![tactic(auto)]

mod alone;
mod answering;
mod line;
mod reading;

pub use alone::Pricing;
pub use line::PricingLine;
pub use lineforms::SheetName;
pub use reading::read_line;
