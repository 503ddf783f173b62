// Readings: kWh join what waits.
ghost use Rattle.std.specs.Prelude.{◌≡◌, IfSome};
ghost use Rattle.facts.specs.Forms.{made};
ghost use Rattle.account.specs.declared.state.State.TheVariants.{Ready};
ghost use Rattle.account.specs.declared.figure.Figure.TheVariants.{Index, Waiting};
ghost use Rattle.account.specs.Registers.{RegisterLimits};
ghost use Rattle.account.specs.Tenancy.{tenancy_of};
ghost use Rattle.account.specs.Steps.{waiting_after, read_to};

use crate::account::Account;
use crate::event::EventKind;
use crate::fault::AccountFault;
use crate::figure::Figure;
use crate::registers::{MOST_KWH, figures_from, joined, kind_of, register_size};

impl Account {
    // What waits in each register after a reading of these indices, where that is within its limit. Registers go by their index, which tells the circuit.
    fn waiting_after(&self, indices: &[u32; 12]) -> Option<[u32; 12]>
        requires { RegisterLimits Index self.now.profile.kinds indices.now }
        ensures value { result ≡ waiting_after (tenancy_of self.now) indices.now }
        ensures limits { IfSome result (RegisterLimits (Waiting Ready) self.now.profile.kinds) }
    {
        let mut waiting = [0u32; 12];
        for (i, index) in indices.iter().enumerate() {
            let size = register_size(kind_of(&self.profile.kinds, i));
            let kwh = joined(size, self.waiting[i], self.indices[i], *index);
            if kwh > MOST_KWH {
                return None;
            }
            waiting[i] = kwh;
        }
        Some(waiting)
    }

    // The account after a reading of these indices.
    pub fn read(self, indices: &[u64; 12]) -> Result<Account, AccountFault>
        ensures { made tenancy_of result ≡ read_to indices.now (tenancy_of self) }
    {
        let state = self.state.after(EventKind::Reading)?;
        let indices = figures_from(Figure::Index, &self.profile.kinds, indices).ok_or(
            AccountFault::IndexOutside,
        )?;
        let waiting = self
            .waiting_after(&indices)
            .ok_or(AccountFault::TooManyKwh)?;
        // Field by field: a literal of a struct with ghost fields takes no `..`.
        Ok(Account {
            state,
            profile: self.profile,
            next: self.next,
            indices,
            waiting,
            balance: self.balance,
        })
    }
}
