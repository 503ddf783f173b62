// What a line can be answered.
ghost use Rattle.std.specs.Prelude.{◌≡◌};
ghost use Rattle.answers.specs.Bills.{bill_numbers};

use account::AccountForm;
use refusal::Refusal;

// A bill as numbers: the plan's code, the months, the kWh by day and by night, the fixed part, the energy part and the cents.
#[derive(Clone, Copy)]
pub struct BillFigures {
    pub code: u64,
    pub months: u64,
    pub day: u64,
    pub night: u64,
    pub fixed: u64,
    pub energy: u64,
    pub cents: u64,
}

// The numbers of a bill in the order in which they are written.
impl From<&BillFigures> for [u64; 7] {
    ghost from_gives = { λ bill numbers. numbers ≡ bill_numbers bill.now };

    fn from(bill: &BillFigures) -> [u64; 7] {
        [
            bill.code,
            bill.months,
            bill.day,
            bill.night,
            bill.fixed,
            bill.energy,
            bill.cents,
        ]
    }
}

// The bill of numbers in that order.
impl From<[u64; 7]> for BillFigures {
    ghost from_gives = { λ numbers bill. bill_numbers bill ≡ numbers };

    fn from(numbers: [u64; 7]) -> BillFigures {
        let [code, months, day, night, fixed, energy, cents] = numbers;
        BillFigures {
            code,
            months,
            day,
            night,
            fixed,
            energy,
            cents,
        }
    }
}

// The answer to a line.
#[derive(Clone, Copy)]
pub enum Answer {
    // a rating in tenths of a kVA
    Tenths(u16),
    // the house sheet was read and has so many lines
    Lines(u64),
    // a permitted plan's price: fixed part, energy part, cents
    Parts(u64, u64, u64),
    NotPermitted,
    // the cheapest plan: code, fixed part, energy part, cents
    Plan(u64, u64, u64, u64),
    // the sheet permits no plan
    NoPlan,
    // a new board and a new cabinet on it: its capacity and its limit
    Made(u64, u64),
    // a month was posted: its number and its N_E
    Posted(u64, u64),
    // a call was made that has nothing more to say
    Done,
    Bill(BillFigures),
    Account(AccountForm),
    // no account stands at the number
    Vacant,
    // the row of an account as the board holds it
    Row([u8; 128]),
    Refused(Refusal),
    Unreadable,
    NoMemory,
}
