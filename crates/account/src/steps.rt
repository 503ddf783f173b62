// What stands at a number before and after an event.
ghost use Rattle.std.specs.Prelude.{◌≡◌};
ghost use Rattle.std.specs.Option.{option_map};
ghost use Rattle.facts.specs.Forms.{made};
ghost use Rattle.account.specs.Tenancy.{tenancy_of};
ghost use Rattle.account.specs.Steps.{standing as standing_of, stepped};

use crate::account::Account;
use crate::event::Event;
use crate::fault::AccountFault;
use crate::state::State;

// The state of what was found at a number.
pub fn standing(found: &Option<Account>) -> State
    ensures { result ≡ standing_of (option_map tenancy_of found.now) }
{
    found.map_or(State::Vacant, |account| account.state)
}

// What stands at a number after an event, or why it is refused.
pub fn step(found: Option<Account>, event: &Event) -> Result<Option<Account>, AccountFault>
    ensures { made (option_map tenancy_of) result ≡ stepped event.now (option_map tenancy_of found) }
{
    match event {
        Event::Open(form) => Ok(Some(Account::open(standing(&found), form)?)),
        Event::Read(indices) => Ok(Some(found.ok_or(AccountFault::Vacant)?.read(indices)?)),
        Event::Settle(end, cents) => Ok(Some(
            found.ok_or(AccountFault::Vacant)?.settle(*end, *cents)?,
        )),
        Event::Pay(cents) => Ok(Some(found.ok_or(AccountFault::Vacant)?.pay(*cents)?)),
        Event::Close => {
            found.ok_or(AccountFault::Vacant)?.close()?;
            Ok(None)
        }
    }
}
