// The decree sheet: the maximum prices of the low-voltage schedule, as six bases with three meters.
#![tactic(auto)]

mod meters;
mod permission;
mod prices;
mod rates;
mod tariff;

pub use tariff::{Decree, extended_from, plain_code};
