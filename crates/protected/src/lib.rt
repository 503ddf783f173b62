// The protected layer: a sheet laid over any other sheet, which adds the social tariff of protected customers as one more plan.
#![tactic(auto)]

mod layer;
mod social;

pub use layer::Protected;
