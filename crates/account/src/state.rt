// The states of an account, and which events each takes.
ghost use Rattle.std.specs.Prelude.{◌≡◌};
ghost use Rattle.common.specs.Numbering.{Numbered, found_at};
ghost use Rattle.account.specs.States.{state_number, state_at, after};

use crate::event::EventKind;
use crate::fault::AccountFault;
use common::UnknownNumber;

// What stands at a number: no account, one whose kWh are all settled, or one with a reading to settle.
#[derive(Clone, Copy, PartialEq, Eq, Debug)]
pub enum State {
    Vacant,
    Running,
    Ready,
}

// The state of a number, 0 to 2.
impl TryFrom<u64> for State {
    type Error = UnknownNumber;

    ghost try_from_gives = { λ n r. (r ≡ found_at n (state_at n)) × Numbered state_number n (state_at n) };

    fn try_from(number: u64) -> Result<State, UnknownNumber> {
        match number {
            0 => Ok(State::Vacant),
            1 => Ok(State::Running),
            2 => Ok(State::Ready),
            _ => Err(UnknownNumber { number }),
        }
    }
}

impl From<State> for u8 {
    ghost from_gives = { λ state number. number ≡ state_number state };

    fn from(state: State) -> u8 {
        match state {
            State::Vacant => 0,
            State::Running => 1,
            State::Ready => 2,
        }
    }
}

impl State {
    // The state that follows an event, or why this state does not take it.
    pub fn after(self, event: EventKind) -> Result<State, AccountFault>
        ensures { result ≡ after self event }
    {
        match (self, event) {
            (State::Vacant, EventKind::Opening) => Ok(State::Running),
            (State::Vacant, _) => Err(AccountFault::Vacant),
            (_, EventKind::Opening) => Err(AccountFault::NotVacant),
            (_, EventKind::Reading) => Ok(State::Ready),
            (State::Running, EventKind::Settlement) => Err(AccountFault::NotReady),
            (State::Ready, EventKind::Settlement) => Ok(State::Running),
            (_, EventKind::Payment) => Ok(self),
            (State::Running, EventKind::Closing) => Ok(State::Vacant),
            (State::Ready, EventKind::Closing) => Err(AccountFault::NotClosable),
        }
    }
}
