// Making accounts from numbers, each limit looked at.
ghost use Rattle.std.specs.Prelude.{◌≡◌, ◌≤◌, true};
ghost use Rattle.facts.specs.Forms.{made};
ghost use Rattle.facts.specs.Usage.{dwelling_of};
ghost use Rattle.account.specs.Balances.{balance_fits};
ghost use Rattle.account.specs.Tenancy.{tenancy_of};
ghost use Rattle.account.specs.Forms.{registers_made, account_made};

use crate::account::Account;
use crate::balances::balance_fits;
use crate::billing::LAST_MONTH;
use crate::fault::AccountFault;
use crate::figure::Figure;
use crate::form::AccountForm;
use crate::registers::figures_from;
use crate::state::State;
use facts::Profile;

// The largest next month, behind the last that can be settled.
const MOST_NEXT: u64 = LAST_MONTH + 1;

impl Account {
    // The account of this state and profile, where its registers may have the form's figures.
    fn with_registers(
        state: State,
        profile: Profile,
        form: &AccountForm,
    ) -> Result<Account, AccountFault>
        requires { (form.now.next ≤ 1200) × (balance_fits form.now.balance ≡ true) }
        ensures { made tenancy_of result ≡ registers_made form.now state (dwelling_of profile) }
    {
        let indices = figures_from(Figure::Index, &profile.kinds, &form.indices).ok_or(
            AccountFault::BrokenRow,
        )?;
        let waiting = figures_from(Figure::Waiting(state), &profile.kinds, &form.waiting).ok_or(
            AccountFault::BrokenRow,
        )?;
        Ok(Account {
            state,
            profile,
            next: form.next as u16,
            indices,
            waiting,
            balance: form.balance,
        })
    }

    // The account of a form, where it is within the limits of an account.
    pub fn new(form: &AccountForm) -> Result<Account, AccountFault>
        ensures { made tenancy_of result ≡ account_made form.now }
    {
        if form.next > MOST_NEXT || !balance_fits(form.balance) {
            return Err(AccountFault::BrokenRow);
        }
        let state = State::try_from(form.state)?;
        let profile = Profile::new(&form.profile).map_err(|_| AccountFault::BrokenRow)?;
        Account::with_registers(state, profile, form)
    }
}
