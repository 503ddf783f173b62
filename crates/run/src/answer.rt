// What a call is answered.
use account::Account;
use cabinet::Bill;
use refusal::Refusal;

// An answer: the month posted with its N_E, done, a bill, the account shown, vacant, or a refusal.
#[derive(Clone, Copy, PartialEq, Eq, Debug)]
pub enum Answer {
    Posted(u64, u64),
    Done,
    Billed(Bill),
    Shown(Account),
    Vacant,
    Refused(Refusal),
}
