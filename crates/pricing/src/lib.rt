// The pieces that the prices of several sheets are formed of: kWh, unit rates, yearly charges, charged power.
#![tactic(auto)]

mod charge;
mod kwh;
mod rate;

pub use charge::{YearlyCharge, charged_power};
pub use kwh::Kwh;
pub use rate::{MONTHS_A_YEAR, UnitRate};
