// Posting a month, and summing the figures of a period.
ghost use Rattle.std.specs.Prelude.{◌≡◌, ◌<◌, [], ◌∷◌, ◌++◌, length, IfSome, IfOk};
ghost use Rattle.figures.specs.Figures.{month_figures};
ghost use Rattle.months.specs.Posted.{posted_of, post_answer, post_after, sums_answer, SumLimits};

use super::Months;
use crate::fault::PostFault;
use figures::{Month, NcSum, NeSum};
use std::alloc::{AllocError, Global};

// How many months are kept.
const MOST: u64 = 1_200;

impl Months {
    // No month yet. All the memory that posting will need is taken here.
    pub fn new(heap: Global) -> Result<Months, AllocError>
        ensures { IfOk result (λ m. posted_of m ≡ []) }
    {
        let posted = Vec::with_capacity(heap, MOST as usize)?;
        Ok(Months { posted })
    }

    // How many months are posted; the next one has this number.
    pub fn count(&self) -> u64
        ensures { result ≡ length (posted_of self.now) }
    {
        self.posted.len() as u64
    }

    // Puts one more month behind the others.
    fn keep(&mut self, month: Month)
        requires { length (posted_of self.old) < 1200 }
        ensures { posted_of self.new ≡ posted_of self.old ++ month_figures month ∷ [] }
    {
        self.posted.push_reserved(month);
    }

    // Posts the month that is due, and answers its number together with its N_E.
    pub fn post(&mut self, s: u64, mx: u64, nc: u64) -> Result<(u64, u64), PostFault>
        ensures answer { result ≡ post_answer (posted_of self.old) s mx nc }
        ensures after { posted_of self.new ≡ post_after (posted_of self.old) s mx nc }
    {
        let due = self.count();
        if due >= MOST {
            return Err(PostFault::AllPosted(due));
        }
        let month = Month::from_indices(s, mx, nc).ok_or(PostFault::OutsideLimits(due))?;
        self.keep(month);
        Ok((due, month.ne() as u64))
    }

    // The sums of N_E and N_C over some months from a first one on, where all of them are posted.
    pub fn sums(&self, first: u64, months: u8) -> Option<(NeSum, NcSum)>
        ensures value { result ≡ sums_answer (posted_of self.now) first months }
        ensures bound { IfSome result (SumLimits months) }
    {
        let end = first.checked_add(months as u64)?;
        let period = self.posted.get(first as usize..end as usize)?;
        let mut ne = 0u64;
        let mut nc = 0u64;
        for month in period {
            ne += month.ne() as u64;
            nc += month.nc() as u64;
        }
        Some((NeSum::new(ne), NcSum::new(nc)))
    }
}
