// Openings: the first account at a number.
ghost use Rattle.std.specs.Prelude.{◌≡◌};
ghost use Rattle.facts.specs.Forms.{made};
ghost use Rattle.account.specs.Tenancy.{tenancy_of};
ghost use Rattle.account.specs.Steps.{opened};

use crate::account::Account;
use crate::billing::LAST_MONTH;
use crate::event::{EventKind, OpeningForm};
use crate::fault::AccountFault;
use crate::figure::Figure;
use crate::registers::figures_from;
use crate::state::State;
use facts::Profile;

impl Account {
    // The account of an opening, where what stands at its number takes one.
    pub fn open(standing: State, form: &OpeningForm) -> Result<Account, AccountFault>
        ensures { made tenancy_of result ≡ opened form.now standing }
    {
        let state = standing.after(EventKind::Opening)?;
        let profile = Profile::new(&form.profile)?;
        let indices = figures_from(Figure::Index, &profile.kinds, &form.indices).ok_or(
            AccountFault::OutsideRules,
        )?;
        if form.first > LAST_MONTH {
            return Err(AccountFault::OutsideRules);
        }
        Ok(Account {
            state,
            profile,
            next: form.first as u16,
            indices,
            waiting: [0; 12],
            balance: 0,
        })
    }
}
