// How tenants pay.
ghost use Rattle.std.specs.Prelude.{◌≡◌};
ghost use Rattle.tenants.specs.Payments.{payer_of, owes, advance, amount_of};

use crate::visit::Visit;
use tally::Tally;

// A tenant pays all that is owed at once, a half of it each month, or something in advance each month.
#[derive(Clone, Copy)]
enum Payer {
    AtOnce,
    ByHalves,
    InAdvance,
}

// All payers, from which a tenant's way is drawn.
const PAYERS: [Payer; 3] = [Payer::AtOnce, Payer::ByHalves, Payer::InAdvance];

// How the tenant of an account pays, for as long as the account stands.
fn payer_of(visit: &Visit, tally: &Tally) -> Payer
    ensures { result ≡ payer_of visit.now tally.now }
{
    visit.tenant(tally.first).pick(4, &PAYERS)
}

// The most that one payment may be, in cents.
const MOST: u64 = 1_000_000_000;

// The cents that a tally owes.
fn owed(tally: &Tally) -> u64
    ensures { result ≡ owes tally.now }
{
    tally.charged.saturating_sub(tally.paid)
}

// What is paid in advance: 8 to 16 euros, unless there are 60 euros of credit already.
fn paid_ahead(visit: &Visit, tally: &Tally) -> u64
    ensures { result ≡ advance visit.now tally.now }
{
    if tally.paid.saturating_sub(tally.charged) < 6_000 {
        800 + visit.lot().below(3, 801)
    } else {
        0
    }
}

// What the tenant pays this month, 0 for nothing; who leaves pays all that is owed.
pub fn amount(visit: &Visit, tally: &Tally) -> u64
    ensures { result ≡ amount_of visit.now tally.now }
{
    let owed = owed(tally);
    if visit.leaves() {
        return owed.min(MOST);
    }
    let cents = match payer_of(visit, tally) {
        Payer::AtOnce => owed,
        Payer::ByHalves => owed - owed / 2,
        Payer::InAdvance => owed.saturating_add(paid_ahead(visit, tally)),
    };
    cents.min(MOST)
}
