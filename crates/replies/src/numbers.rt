// Bills as plain numbers.
ghost use Rattle.std.specs.Prelude.{◌≡◌};
ghost use Rattle.replies.specs.Replies.{bill_figures};

use answers::BillFigures;
use cabinet::Bill;

// A bill by its numbers.
// A function, since neither type is this crate's own, as `From` would ask.
pub fn bill_figures(bill: Bill) -> BillFigures
    ensures { result ≡ bill_figures bill }
{
    let (fixed, energy) = bill.parts();
    BillFigures {
        code: bill.code(),
        months: u64::from(bill.months()),
        day: bill.day(),
        night: bill.night(),
        fixed,
        energy,
        cents: bill.cents(),
    }
}
