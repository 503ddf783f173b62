// What a period is priced on: a dwelling's profile, its kWh and the sums of the months' price figures, all within their limits.
#![tactic(auto)]

mod facts;
mod form;
mod kind;
mod making;
mod numbers;
mod profile;

pub use facts::Facts;
pub use form::{FactsFault, FactsForm, ProfileForm};
pub use kind::{Class, Kind, Marks};
pub use profile::Profile;
