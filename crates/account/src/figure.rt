// What the figures of a register are.
use crate::state::State;

// The index last read, or the kWh that wait in an account of this state.
#[derive(Clone, Copy)]
pub enum Figure {
    Index,
    Waiting(State),
}
