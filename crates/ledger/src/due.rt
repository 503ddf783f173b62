// A period that is due for settling.
ghost use Rattle.std.specs.Prelude.{◌≡◌, Ok};
ghost use Rattle.account.specs.Steps.{months_to};
ghost use Rattle.account.specs.Tenancy.{tenancy_of};

use account::Account;

// A period that an account may be settled for: the account and its number, the period's last month and how many months it has.
#[derive(Clone, Copy)]
pub struct Due {
    pub number: u64,
    pub account: Account,
    pub end: u64,
    pub months: u8,
    ghost period: { months_to end (tenancy_of account) ≡ Ok months },
}
