// Settlements, payments and closings.
ghost use Rattle.std.specs.Prelude.{◌≡◌};
ghost use Rattle.facts.specs.Forms.{made};
ghost use Rattle.account.specs.Tenancy.{tenancy_of};
ghost use Rattle.account.specs.Steps.{period_fits, months_to, settled, paid, closed};

use crate::account::Account;
use crate::balances::balance_fits;
use crate::event::EventKind;
use crate::fault::AccountFault;

// The most cents that can change a balance from one limit to the other.
const MOST_CENTS: u64 = 2_000_000_000_000;
// The most cents of a payment.
const MOST_PAYMENT: u64 = 1_000_000_000;
// The most months of a period.
const MOST_MONTHS: u64 = 12;
// The last month that an account can start with, or be settled for.
pub(crate) const LAST_MONTH: u64 = 1_199;

// Whether the months from one up to another are a period.
fn period_fits(next: u16, end: u64) -> bool
    ensures { result ≡ period_fits next end }
{
    let next = u64::from(next);
    (next..next + MOST_MONTHS).contains(&end)
}

impl Account {
    // The months of the period that a settlement up to `end` would bill. This is the first half of settling.
    pub fn months_to(self, end: u64) -> Result<u8, AccountFault>
        ensures { result ≡ months_to end (tenancy_of self) }
    {
        let _running = self.state.after(EventKind::Settlement)?;
        if !period_fits(self.next, end) {
            return Err(AccountFault::PeriodOutside);
        }
        Ok((end - u64::from(self.next) + 1) as u8)
    }

    // The account after a settlement up to `end` of so many cents. This is the second half of settling.
    pub fn settle(self, end: u64, cents: u64) -> Result<Account, AccountFault>
        ensures { made tenancy_of result ≡ settled end cents (tenancy_of self) }
    {
        let state = self.state.after(EventKind::Settlement)?;
        if !period_fits(self.next, end) || end > LAST_MONTH {
            return Err(AccountFault::PeriodOutside);
        }
        if cents > MOST_CENTS {
            return Err(AccountFault::BalanceOutside);
        }
        let balance = self.balance + cents as i64;
        if !balance_fits(balance) {
            return Err(AccountFault::BalanceOutside);
        }
        // `..self` does not reach the limits of an account, which are proved of each one made
        let Account {
            profile,
            indices,
            ..
        } = self;
        Ok(Account {
            state,
            profile,
            next: end as u16 + 1,
            indices,
            waiting: [0; 12],
            balance,
        })
    }

    // The account after a payment of so many cents.
    pub fn pay(self, cents: u64) -> Result<Account, AccountFault>
        ensures { made tenancy_of result ≡ paid cents (tenancy_of self) }
    {
        let state = self.state.after(EventKind::Payment)?;
        if !(1..=MOST_PAYMENT).contains(&cents) {
            return Err(AccountFault::PaymentOutside);
        }
        let balance = self.balance - cents as i64;
        if !balance_fits(balance) {
            return Err(AccountFault::BalanceOutside);
        }
        let Account {
            profile,
            next,
            indices,
            waiting,
            ..
        } = self;
        Ok(Account {
            state,
            profile,
            next,
            indices,
            waiting,
            balance,
        })
    }

    // Whether the account may be closed; nothing is left of it then.
    pub fn close(self) -> Result<(), AccountFault>
        ensures { result ≡ closed (tenancy_of self) }
    {
        let _vacant = self.state.after(EventKind::Closing)?;
        if self.balance != 0 {
            return Err(AccountFault::NotClosable);
        }
        Ok(())
    }
}
