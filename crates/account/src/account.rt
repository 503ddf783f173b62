// An account.
ghost use Rattle.std.specs.Prelude.{◌≡◌, ◌≤◌, true};
ghost use Rattle.account.specs.declared.figure.Figure.TheVariants.{Index, Waiting};
ghost use Rattle.account.specs.Registers.{RegisterLimits};
ghost use Rattle.account.specs.Balances.{balance_fits};

use crate::state::State;
use facts::Profile;

// An account: the profile of its dwelling, the first month that is not yet settled, for each register the index last read and the kWh that wait to be settled, and the balance in cents. Registers go per circuit, by day then by night; indices and waiting kWh stand apart, as in the row, whose fields they are.
#[derive(Clone, Copy, PartialEq, Eq, Debug)]
pub struct Account {
    pub state: State,
    pub profile: Profile,
    pub next: u16,
    pub indices: [u32; 12],
    pub waiting: [u32; 12],
    pub balance: i64,
    ghost month: { next ≤ 1200 },
    ghost shown: { RegisterLimits Index profile.kinds indices },
    ghost unsettled: { RegisterLimits (Waiting state) profile.kinds waiting },
    ghost owed: { balance_fits balance ≡ true },
}
