// A tally against what a cabinet shows.
ghost use Rattle.std.specs.Prelude.{Decides};
ghost use Rattle.account.specs.Tenancy.{tenancy_of};
ghost use Rattle.run.specs.Asked.{told};
ghost use Rattle.tally.specs.Showings.{Metered, Agrees, ShownBy};

use crate::tally::Tally;
use account::{Account, Hours};
use run::Answer;

impl Tally {
    // Whether the kWh read in these hours are those billed and those that wait in an account.
    fn is_metered(&self, account: &Account, hours: Hours) -> bool
        ensures { Decides result (Metered hours self.now (tenancy_of account.now)) }
    {
        let waiting = account.waiting_in_all(hours);
        self.read.of(hours) as u128 == self.billed.of(hours) as u128 + waiting as u128
    }

    // Whether an account has this balance and next month, and as many kWh waiting as were read and not billed.
    fn agrees_with(&self, account: &Account) -> bool
        ensures { Decides result (Agrees self.now (tenancy_of account.now)) }
    {
        if account.balance as i128 != self.owed() || account.next as u64 != self.next {
            return false;
        }
        self.is_metered(account, Hours::Day) && self.is_metered(account, Hours::Night)
    }
}

// Whether a showing tells what the sums at its number say: vacant, or an account that agrees with them.
pub fn is_shown(tally: Option<Tally>, answer: &Answer) -> bool
    ensures { Decides result (ShownBy tally (told answer.now)) }
{
    match (tally, answer) {
        (Some(tally), Answer::Shown(account)) => tally.agrees_with(account),
        (None, Answer::Vacant) => true,
        _ => false,
    }
}
