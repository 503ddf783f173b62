// Registers: what they may have, and what they counted between two readings.
ghost use Rattle.std.specs.Prelude.{◌≡◌, ◌+◌, ◌<◌, ◌≤◌, true, IfSome};
ghost use Rattle.account.specs.Registers.{register_size, kind_of, difference, figure_fits, figures_at, RegisterLimits};

use crate::figure::Figure;
use crate::state::State;
use facts::Kind;

// The number of indices that a used circuit's register can show.
const SIX_DIGITS: u32 = 1_000_000;
// The most kWh that a reading may count on a register, and that may wait in it.
pub(crate) const MOST_KWH: u32 = 100_000;

// How many indices a register can show: six digits, and 0 alone where the circuit is unused.
pub(crate) fn register_size(kind: Kind) -> u32
    ensures value { result ≡ register_size kind }
    ensures bound { (1 ≤ result) × (result ≤ 1000000) }
{
    match kind {
        Kind::Unused => 1,
        Kind::General | Kind::NightReserved | Kind::Interruptible => SIX_DIGITS,
    }
}

// What waits in a register of this size after it went from one index to another.
pub(crate) fn joined(size: u32, waiting: u32, old: u32, new: u32) -> u32
    requires { (old < size) × ((new < size) × ((size ≤ 1000000) × (waiting ≤ 100000))) }
    ensures { result ≡ waiting + difference size old new }
{
    waiting + (new + size - old) % size
}

// The kind of the circuit that a register belongs to.
pub(crate) fn kind_of(kinds: &[Kind; 6], register: usize) -> Kind
    requires { register < 12 }
    ensures { result ≡ kind_of kinds.now register }
{
    kinds[register / 2]
}

// Whether a register of such a circuit may have this number.
fn figure_fits(figure: Figure, kind: Kind, number: u64) -> bool
    ensures value { result ≡ figure_fits figure kind number }
    ensures bound { result ≡ true → number ≤ 1000000 }
{
    match (figure, kind) {
        (Figure::Index, _) => number < u64::from(register_size(kind)),
        (Figure::Waiting(State::Vacant), _) => false,
        (Figure::Waiting(State::Running), _) => number == 0,
        (Figure::Waiting(State::Ready), Kind::Unused) => number == 0,
        (Figure::Waiting(State::Ready), _) => number <= u64::from(MOST_KWH),
    }
}

// The figures of twelve registers, where each may have its number. Registers go by their index, which tells the circuit.
pub(crate) fn figures_from(
    figure: Figure,
    kinds: &[Kind; 6],
    numbers: &[u64; 12],
) -> Option<[u32; 12]>
    ensures value { result ≡ figures_at figure kinds.now numbers.now }
    ensures limits { IfSome result (RegisterLimits figure kinds.now) }
{
    let mut figures = [0u32; 12];
    for (i, number) in numbers.iter().enumerate() {
        if !figure_fits(figure, kind_of(kinds, i), *number) {
            return None;
        }
        figures[i] = *number as u32;
    }
    Some(figures)
}
