// Accounts as they are handed in: any numbers.
ghost use Rattle.std.specs.Prelude.{◌≡◌, map};
ghost use Rattle.facts.specs.Numbers.{kind_number};
ghost use Rattle.facts.specs.Usage.{dwelling_of};
ghost use Rattle.account.specs.Tenancy.{tenancy_of};
ghost use Rattle.account.specs.Forms.{profile_form_of, form_of};

use crate::account::Account;
use facts::{Kind, Profile, ProfileForm};

// An account as numbers: the state, the profile, the next month, the indices and the waiting kWh of the registers, and the balance in cents.
#[derive(Clone, Copy)]
pub struct AccountForm {
    pub state: u64,
    pub profile: ProfileForm,
    pub next: u64,
    pub indices: [u64; 12],
    pub waiting: [u64; 12],
    pub balance: i64,
}

// The numbers of six circuits' kinds.
fn kind_numbers(kinds: &[Kind; 6]) -> [u64; 6]
    ensures { result ≡ map kind_number kinds.now }
{
    kinds.map(|kind| u64::from(u8::from(kind)))
}

// The numbers of a profile.
fn profile_form(profile: &Profile) -> ProfileForm
    ensures { result ≡ profile_form_of (dwelling_of profile.now) }
{
    ProfileForm {
        class: u64::from(u8::from(profile.class)),
        marks: u64::from(u8::from(profile.marks)),
        power: u64::from(profile.power),
        exempt: u64::from(profile.exempt),
        kinds: kind_numbers(&profile.kinds),
    }
}

// The numbers of an account.
impl From<&Account> for AccountForm {
    ghost from_gives = { λ account form. form ≡ form_of (tenancy_of account.now) };

    fn from(account: &Account) -> AccountForm {
        AccountForm {
            state: u64::from(u8::from(account.state)),
            profile: profile_form(&account.profile),
            next: u64::from(account.next),
            indices: account.indices.map(u64::from),
            waiting: account.waiting.map(u64::from),
            balance: account.balance,
        }
    }
}
