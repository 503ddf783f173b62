// What the calls on one account add up to.
ghost use Rattle.std.specs.Prelude.{◌≡◌};
ghost use Rattle.tally.specs.Tallies.{opened_by, with_reading, with_bill, with_payment, owed, after};

use crate::energy::{Energy, counted};
use account::OpeningForm;
use cabinet::Bill;
use facts::ProfileForm;
use run::{Answer, Call};

// An account's own sums since it was opened.
#[derive(Clone, Copy)]
pub struct Tally {
    // a reading waits to be settled; of an account's states, vacant is no tally
    pub ready: bool,
    pub profile: ProfileForm,
    // the month of the opening, and the first one that is not settled
    pub first: u64,
    pub next: u64,
    pub indices: [u64; 12],
    // the kWh of all readings and of all bills
    pub read: Energy,
    pub billed: Energy,
    // the cents of all bills and of all payments
    pub charged: u64,
    pub paid: u64,
}

impl Tally {
    // An account that was just opened.
    fn opened(form: &OpeningForm) -> Tally
        ensures { result ≡ opened_by form.now }
    {
        Tally {
            ready: false,
            profile: form.profile,
            first: form.first,
            next: form.first,
            indices: form.indices,
            read: Energy::default(),
            billed: Energy::default(),
            charged: 0,
            paid: 0,
        }
    }

    fn with_reading(self, indices: &[u64; 12]) -> Tally
        ensures { result ≡ with_reading indices.now self }
    {
        Tally {
            read: self.read.plus(counted(&self.indices, indices)),
            indices: *indices,
            ready: true,
            ..self
        }
    }

    fn with_bill(self, end: u64, bill: Bill) -> Tally
        ensures { result ≡ with_bill end bill self }
    {
        Tally {
            billed: self.billed.plus(bill.into()),
            charged: self.charged.saturating_add(bill.cents()),
            next: end.saturating_add(1),
            ready: false,
            ..self
        }
    }

    fn with_payment(self, cents: u64) -> Tally
        ensures { result ≡ with_payment cents self }
    {
        Tally {
            paid: self.paid.saturating_add(cents),
            ..self
        }
    }

    // The cents that are owed: bills less payments.
    pub fn owed(&self) -> i128
        ensures { result ≡ owed self.now }
    {
        self.charged as i128 - self.paid as i128
    }
}

// The sums at a number, none where it is vacant, after a call on it and what that was answered.
pub fn after<S>(tally: Option<Tally>, call: &Call<S>, answer: &Answer) -> Option<Tally>
    ensures { result ≡ after call.now answer.now tally }
{
    match (call, answer) {
        (Call::Open { form, .. }, Answer::Done) => Some(Tally::opened(form)),
        (Call::Read { indices, .. }, Answer::Done) => tally.map(|t| t.with_reading(indices)),
        (Call::Settle { end, .. }, Answer::Billed(bill)) => tally.map(|t| t.with_bill(*end, *bill)),
        (Call::Pay { cents, .. }, Answer::Done) => tally.map(|t| t.with_payment(*cents)),
        (Call::Close { .. }, Answer::Done) => None,
        _ => tally,
    }
}
