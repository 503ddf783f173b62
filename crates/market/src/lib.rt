// What an estate is handed from outside, drawn by lot: each month's indices and each year's own price list.
#![tactic(auto)]

mod indices;
mod pricelist;

pub use indices::MonthIndices;
pub use pricelist::price_list;
