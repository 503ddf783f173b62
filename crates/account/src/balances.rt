// Balances, in cents.
ghost use Rattle.std.specs.Prelude.{◌≡◌};
ghost use Rattle.account.specs.Balances.{balance_fits};

// The most cents that may be owed, on either side.
const MOST_BALANCE: i64 = 1_000_000_000_000;

// Whether an account may have this balance.
pub(crate) fn balance_fits(balance: i64) -> bool
    ensures { result ≡ balance_fits balance }
{
    (-MOST_BALANCE..=MOST_BALANCE).contains(&balance)
}
