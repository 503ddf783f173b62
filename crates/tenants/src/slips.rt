// Calls that a careless office makes, each of which is refused whatever stands at its number.
ghost use Rattle.std.specs.Prelude.{◌≡◌};
ghost use Rattle.chance.specs.Drawn.{drawn_below};
ghost use Rattle.tenants.specs.Slips.{slip_at, backwards, too_high, powerless, settled_again, closed_unsettled, slip_call, slip_of};

use crate::household::Household;
use crate::visit::Visit;
use account::OpeningForm;
use chance::Chance;
use facts::ProfileForm;
use lineforms::SheetName;
use run::Call;

#[derive(Clone, Copy)]
enum Slip {
    // without a reading since the last bill, or up to a month that is not posted
    SettlesAgain,
    // up to a month that is settled
    SettlesThePast,
    // with an index one lower than before
    ReadsBackwards,
    // with an index of seven digits
    ReadsTooHigh,
    PaysNothing,
    PaysTooMuch,
    // without power, at an open number or not
    OpensAgain,
    // with a reading to settle or a balance
    ClosesUnsettled,
    // a number that no dwelling has
    ShowsOutside,
    // without a wage index
    PostsNothing,
}

// All slips, from which that of a dwelling is drawn.
const SLIPS: [Slip; 10] = [
    Slip::SettlesAgain,
    Slip::SettlesThePast,
    Slip::ReadsBackwards,
    Slip::ReadsTooHigh,
    Slip::PaysNothing,
    Slip::PaysTooMuch,
    Slip::OpensAgain,
    Slip::ClosesUnsettled,
    Slip::ShowsOutside,
    Slip::PostsNothing,
];

// The last indices, but one lower on the first register.
fn backwards_from(indices: &[u64; 12]) -> [u64; 12]
    ensures { result ≡ backwards indices.now }
{
    let mut lower = *indices;
    lower[0] = (indices[0] % 1_000_000 + 999_999) % 1_000_000;
    lower
}

// The last indices, but one more than a register can show on the first.
fn too_high_from(indices: &[u64; 12]) -> [u64; 12]
    ensures { result ≡ too_high indices.now }
{
    let mut higher = *indices;
    higher[0] = 1_000_000;
    higher
}

// A flat without power.
fn without_power(month: u64) -> OpeningForm
    ensures { result ≡ powerless month }
{
    OpeningForm {
        profile: ProfileForm {
            power: 0,
            ..Household::Flat.profile()
        },
        first: month,
        indices: [0; 12],
    }
}

// A settlement where no reading waits; where one does, up to the month that is not posted yet.
fn settled_again(visit: &Visit) -> Call<SheetName>
    ensures { result ≡ settled_again visit.now }
{
    let end = match visit.tally {
        Some(tally) if tally.ready => visit.month.saturating_add(1),
        _ => visit.month,
    };
    Call::Settle {
        number: visit.number,
        end,
        sheet: SheetName::Decree,
    }
}

// A closing where something is left to settle or to pay; where nothing is, a showing outside.
fn closed_unsettled(visit: &Visit) -> Call<SheetName>
    ensures { result ≡ closed_unsettled visit.now }
{
    match visit.tally {
        Some(tally) if !tally.ready && tally.charged == tally.paid => {
            Call::Show { number: u64::MAX }
        }
        _ => Call::Close {
            number: visit.number,
        },
    }
}

// The call of a slip.
fn slip_call(slip: Slip, visit: &Visit) -> Call<SheetName>
    ensures { result ≡ slip_call slip visit.now }
{
    let number = visit.number;
    match slip {
        Slip::SettlesAgain => settled_again(visit),
        Slip::SettlesThePast => Call::Settle {
            number,
            end: visit.next().wrapping_sub(1),
            sheet: SheetName::Decree,
        },
        Slip::ReadsBackwards => Call::Read {
            number,
            indices: backwards_from(&visit.indices()),
        },
        Slip::ReadsTooHigh => Call::Read {
            number,
            indices: too_high_from(&visit.indices()),
        },
        Slip::PaysNothing => Call::Pay { number, cents: 0 },
        Slip::PaysTooMuch => Call::Pay {
            number,
            cents: 1_000_000_001,
        },
        Slip::OpensAgain => Call::Open {
            number,
            form: without_power(visit.month),
        },
        Slip::ClosesUnsettled => closed_unsettled(visit),
        Slip::ShowsOutside => Call::Show { number: u64::MAX },
        Slip::PostsNothing => Call::Post {
            s: 0,
            mx: 141_151,
            nc: 10_000,
        },
    }
}

// The slip that a lot falls on.
fn slip_from(lot: Chance) -> Slip
    ensures { result ≡ slip_at (drawn_below lot.seed 1 10) }
{
    lot.pick(1, &SLIPS)
}

// The slip at a dwelling in one of the month's turns, one time out of ten.
pub fn slip_in(visit: &Visit, turn: u64) -> Option<Call<SheetName>>
    ensures { result ≡ slip_of visit.now turn }
{
    let lot = visit.lot().at(turn);
    if lot.below(0, 10) > 0 {
        return None;
    }
    Some(slip_call(slip_from(lot), visit))
}
