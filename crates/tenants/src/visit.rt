// A dwelling as it stands in a month, and the lots that are drawn for it.
ghost use Rattle.std.specs.Prelude.{◌≡◌};
ghost use Rattle.tenants.specs.Visits.{lot_of, tenant_of, household_of, moves_in, leaves, indices_of, next_of};

use crate::household::{HOUSEHOLDS, Household};
use chance::Chance;
use tally::Tally;

// The lots of the estate, the number of a dwelling, a month, and what the calls on the account there came to, if there is one.
#[derive(Clone, Copy)]
pub struct Visit {
    pub estate: Chance,
    pub number: u64,
    pub month: u64,
    pub tally: Option<Tally>,
}

impl Visit {
    // The lots of this dwelling in this month.
    pub fn lot(&self) -> Chance
        ensures { result.seed ≡ lot_of self.now }
    {
        self.tenant(self.month)
    }

    // The lots of the tenant who moved in in a month.
    pub fn tenant(&self, first: u64) -> Chance
        ensures { result.seed ≡ tenant_of self.now first }
    {
        self.estate.at(self.number).at(first)
    }

    // The household of the tenant who moved in in a month.
    pub fn household(&self, first: u64) -> Household
        ensures { result ≡ household_of self.now first }
    {
        self.tenant(first).pick(0, &HOUSEHOLDS)
    }

    // Whether a tenant moves into the dwelling if it is empty: two months out of three.
    pub fn moves_in(&self) -> bool
        ensures { result ≡ moves_in self.now }
    {
        self.lot().below(1, 3) > 0
    }

    // Whether the tenant leaves at the end of the month: one month out of forty.
    pub fn leaves(&self) -> bool
        ensures { result ≡ leaves self.now }
    {
        self.lot().below(2, 40) == 0
    }

    // The indices read last; all 0 where nobody lives.
    pub(crate) fn indices(&self) -> [u64; 12]
        ensures { result ≡ indices_of self.now }
    {
        match self.tally {
            Some(tally) => tally.indices,
            None => [0; 12],
        }
    }

    // The first month that is not settled; 0 where nobody lives.
    pub(crate) fn next(&self) -> u64
        ensures { result ≡ next_of self.now }
    {
        self.tally.map_or(0, |tally| tally.next)
    }
}
