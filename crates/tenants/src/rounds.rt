// The rounds that an office makes through the dwellings of an estate each month.
ghost use Rattle.std.specs.Prelude.{◌≡◌};
ghost use Rattle.tenants.specs.Rounds.{sheet_of, opening_of, settles_now, moving_in, reading, settling, paying, moving_out, is_slip, call_in};

use crate::meters::{indices_after, start_indices};
use crate::payments::amount;
use crate::slips::slip_in;
use crate::visit::Visit;
use account::OpeningForm;
use lineforms::SheetName;
use run::Call;
use tally::Tally;

#[derive(Clone, Copy, PartialEq, Eq, Debug)]
pub enum Round {
    MovingIn,
    Reading,
    Settling,
    Paying,
    MovingOut,
    Showing,
    // a careless one, in a turn of the month
    Slipping(u64),
}

// All sheets, from which that of a settlement is drawn.
const SHEETS: [SheetName; 4] = [
    SheetName::Decree,
    SheetName::House,
    SheetName::ProtectedDecree,
    SheetName::ProtectedHouse,
];

// How the account of a new tenant is opened.
fn opening(visit: &Visit) -> OpeningForm
    ensures { result ≡ opening_of visit.now }
{
    let profile = visit.household(visit.month).profile();
    OpeningForm {
        profile,
        first: visit.month,
        indices: start_indices(&profile.kinds, visit.lot()),
    }
}

// An empty dwelling finds a tenant.
fn moving_in(visit: &Visit) -> Option<Call<SheetName>>
    ensures { result ≡ moving_in visit.now }
{
    if visit.tally.is_some() || !visit.moves_in() {
        return None;
    }
    Some(Call::Open {
        number: visit.number,
        form: opening(visit),
    })
}

// The kWh since the last reading are read, every third month and when the tenant leaves.
fn reading_call(visit: &Visit) -> Option<Call<SheetName>>
    ensures { result ≡ reading visit.now }
{
    let tally = visit.tally?;
    let months = visit.month.saturating_sub(tally.first) % 3 + 1;
    if months < 3 && !visit.leaves() {
        return None;
    }
    let monthly = visit.household(tally.first).monthly();
    Some(Call::Read {
        number: visit.number,
        indices: indices_after(&tally.indices, &monthly, months, visit.lot()),
    })
}

// Whether what was read is billed this month.
fn settles_now(visit: &Visit, tally: &Tally) -> bool
    ensures { result ≡ settles_now visit.now tally.now }
{
    let least = visit.household(tally.first).billed_after();
    tally.ready && (visit.month.saturating_sub(tally.next) >= least || visit.leaves())
}

// The sheet of a settlement.
fn sheet_of(visit: &Visit) -> SheetName
    ensures { result ≡ sheet_of visit.now }
{
    visit.lot().pick(5, &SHEETS)
}

// The months up to this one are billed, on a sheet drawn by lot.
fn settling_call(visit: &Visit) -> Option<Call<SheetName>>
    ensures { result ≡ settling visit.now }
{
    let tally = visit.tally?;
    if !settles_now(visit, &tally) {
        return None;
    }
    Some(Call::Settle {
        number: visit.number,
        end: visit.month,
        sheet: sheet_of(visit),
    })
}

fn paying_call(visit: &Visit) -> Option<Call<SheetName>>
    ensures { result ≡ paying visit.now }
{
    let cents = amount(visit, &visit.tally?);
    if cents == 0 {
        return None;
    }
    Some(Call::Pay {
        number: visit.number,
        cents,
    })
}

// A tenant who leaves and owes nothing closes the account; one in credit stays until it is used up.
fn moving_out(visit: &Visit) -> Option<Call<SheetName>>
    ensures { result ≡ moving_out visit.now }
{
    let tally = visit.tally?;
    if tally.ready || tally.charged != tally.paid || !visit.leaves() {
        return None;
    }
    Some(Call::Close {
        number: visit.number,
    })
}

impl Round {
    // Whether its calls should be refused.
    pub fn is_slip(self) -> bool
        ensures { result ≡ is_slip self }
    {
        matches!(self, Round::Slipping(_))
    }

    // The call that this round makes at a dwelling, by what the calls on its account added up to.
    pub fn call(self, visit: &Visit) -> Option<Call<SheetName>>
        ensures { result ≡ call_in self visit.now }
    {
        match self {
            Round::MovingIn => moving_in(visit),
            Round::Reading => reading_call(visit),
            Round::Settling => settling_call(visit),
            Round::Paying => paying_call(visit),
            Round::MovingOut => moving_out(visit),
            Round::Showing => Some(Call::Show {
                number: visit.number,
            }),
            Round::Slipping(turn) => slip_in(visit, turn),
        }
    }
}
