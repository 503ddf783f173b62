// The price sheets that a script can name, as one type.
#![tactic(auto)]

mod any;

pub use any::AnySheet;
