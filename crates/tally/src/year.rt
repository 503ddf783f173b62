// What the calls of a year add up to.
ghost use Rattle.std.specs.Prelude.{◌≡◌};
ghost use Rattle.tally.specs.Years.{with_billed, answered, paid_in, year_after, years_joined};

use crate::energy::Energy;
use cabinet::Bill;
use run::{Answer, Call};

// Calls, those refused among them, bills with their kWh and cents, and the cents of payments.
#[derive(Clone, Copy, PartialEq, Eq, Default, Debug)]
pub struct YearSums {
    pub calls: u64,
    pub refused: u64,
    pub bills: u64,
    pub energy: Energy,
    pub charged: u64,
    pub paid: u64,
}

// The cents that a call paid in.
fn paid_in<S>(call: &Call<S>, answer: &Answer) -> u64
    ensures { result ≡ paid_in call.now answer.now }
{
    match (call, answer) {
        (Call::Pay { cents, .. }, Answer::Done) => *cents,
        _ => 0,
    }
}

impl YearSums {
    fn add_bill(&mut self, bill: Bill)
        ensures { self.new ≡ with_billed bill self.old }
    {
        self.bills = self.bills.saturating_add(1);
        self.energy = self.energy.plus(bill.into());
        self.charged = self.charged.saturating_add(bill.cents());
    }

    // Takes in what a call was answered.
    fn add_answer(&mut self, answer: &Answer)
        ensures { self.new ≡ answered answer.now self.old }
    {
        match answer {
            Answer::Billed(bill) => self.add_bill(*bill),
            Answer::Refused(_) => self.refused = self.refused.saturating_add(1),
            _ => {}
        }
    }

    // Takes in a call and what it was answered.
    pub fn take<S>(&mut self, call: &Call<S>, answer: &Answer)
        ensures { self.new ≡ year_after call.now answer.now self.old }
    {
        self.add_answer(answer);
        self.calls = self.calls.saturating_add(1);
        self.paid = self.paid.saturating_add(paid_in(call, answer));
    }

    // The sums of two spans of time together, as far as 64 bits go; no `+` for the same reason as of Energy.
    pub fn plus(self, more: YearSums) -> YearSums
        ensures { result ≡ years_joined self more }
    {
        YearSums {
            calls: self.calls.saturating_add(more.calls),
            refused: self.refused.saturating_add(more.refused),
            bills: self.bills.saturating_add(more.bills),
            energy: self.energy.plus(more.energy),
            charged: self.charged.saturating_add(more.charged),
            paid: self.paid.saturating_add(more.paid),
        }
    }
}
