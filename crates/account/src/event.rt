// What can happen to an account.
use facts::ProfileForm;

// The kinds of events.
#[derive(Clone, Copy, PartialEq, Eq, Debug)]
pub enum EventKind {
    Opening,
    Reading,
    Settlement,
    Payment,
    Closing,
}

// An opening as it is handed in, any numbers: the profile, the first month and the indices at which the registers start, per circuit by day then by night.
#[derive(Clone, Copy)]
pub struct OpeningForm {
    pub profile: ProfileForm,
    pub first: u64,
    pub indices: [u64; 12],
}

// An event with its figures, any numbers: the indices of a reading, the end month and the cents of a settlement, the cents of a payment.
#[derive(Clone, Copy)]
pub enum Event {
    Open(OpeningForm),
    Read([u64; 12]),
    Settle(u64, u64),
    Pay(u64),
    Close,
}
