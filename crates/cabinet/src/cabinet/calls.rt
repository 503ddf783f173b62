// The calls on a cabinet.
ghost use Rattle.std.specs.Prelude.{◌≡◌};
ghost use Rattle.account.specs.declared.event.Event.TheVariants.{Open, Read, Pay, Close};
ghost use Rattle.account.specs.Steps.{stepped};
ghost use Rattle.account.specs.Tenancy.{tenancy_of};
ghost use Rattle.months.specs.Posted.{posted_of};
ghost use Rattle.board.specs.Meaning.{read_place};
ghost use Rattle.ledger.specs.Calls.{load_answer, show_place, due_of};
ghost use Rattle.cabinet.specs.Books.{books_of, posted_answer, posted_after, done_answer, done_after, priced, billed, bill_answer, bill_after, settle_answer, settle_after, shown_answer, shown_after, row_answer, row_after};

use super::Cabinet;
use crate::bill::Bill;
use crate::bill::settled::facts_of;
use crate::fault::CabinetFault;
use account::{Account, OpeningForm};
use board::Board;
use ledger::Due;
use sheet::{Plan, Sheet, choose};

impl<B: Board> Cabinet<B> {
    // Posts the month that is due from its wage index s, its materials index Mx and its N_C, and answers its number together with its N_E. Refused by 1, 2.
    pub fn post(&mut self, s: u64, mx: u64, nc: u64) -> Result<(u64, u64), CabinetFault>
        ensures answer { result ≡ posted_answer (books_of B.meaning self.old) s mx nc }
        ensures after { books_of B.meaning self.new ≡ posted_after (books_of B.meaning self.old) s mx nc }
    {
        Ok(self.months.post(s, mx, nc)?)
    }

    // Opens an account at a vacant number. Refused by 3, 17, 4, 5, 6.
    pub fn open(&mut self, number: u64, form: &OpeningForm) -> Result<(), CabinetFault>
        ensures answer { result ≡ done_answer (books_of B.meaning self.old) number (Open form.now) }
        ensures after { books_of B.meaning self.new ≡ done_after (books_of B.meaning self.old) number (Open form.now) }
    {
        Ok(self.ledger.open(number, form)?)
    }

    // Takes a reading of the twelve registers. Refused by 3, 17, 7, 8, 9.
    pub fn read(&mut self, number: u64, indices: &[u64; 12]) -> Result<(), CabinetFault>
        ensures answer { result ≡ done_answer (books_of B.meaning self.old) number (Read indices.now) }
        ensures after { books_of B.meaning self.new ≡ done_after (books_of B.meaning self.old) number (Read indices.now) }
    {
        Ok(self.ledger.read(number, indices)?)
    }

    // The cheapest plan of a sheet for a period that is due. Refused by 12, 13.
    fn plan_for<S: Sheet>(&self, due: &Due, sheet: &S) -> Result<Plan, CabinetFault>
        ensures { result ≡ priced (posted_of self.now.months) due.now.number due.now.end (S.tariff sheet.now) (due_of due.now) }
    {
        let (ne, nc) = self
            .months
            .sums(u64::from(due.account.next), due.months)
            .ok_or(CabinetFault::NotPosted(due.number))?;
        choose(sheet, &facts_of(due, ne, nc)).ok_or(CabinetFault::NoPlan(due.number))
    }

    // Books a plan's cents and answers the bill. Refused by 15.
    fn bill(&mut self, due: &Due, plan: Plan) -> Result<Bill, CabinetFault>
        ensures answer { result ≡ bill_answer (books_of B.meaning self.old) due.now.number (billed due.now.number due.now.end (due_of due.now) plan) }
        ensures after { books_of B.meaning self.new ≡ bill_after (books_of B.meaning self.old) due.now.number (billed due.now.number due.now.end (due_of due.now) plan) }
    {
        self.ledger
            .book(due.number, due.account, due.end, plan.cents)?;
        Ok(Bill::new(&due.account, due.months, plan))
    }

    // Bills the period up to an end month on the cheapest plan of a sheet. Refused by 3, 17, 7, 10, 11, 12, 13, 15.
    pub fn settle<S: Sheet>(
        &mut self,
        number: u64,
        end: u64,
        sheet: &S,
    ) -> Result<Bill, CabinetFault>
        ensures answer { result ≡ settle_answer (books_of B.meaning self.old) number end (S.tariff sheet.now) }
        ensures after { books_of B.meaning self.new ≡ settle_after (books_of B.meaning self.old) number end (S.tariff sheet.now) }
    {
        let due = self.ledger.due(number, end)?;
        let plan = self.plan_for(&due, sheet)?;
        self.bill(&due, plan)
    }

    // Takes a payment. Refused by 3, 17, 7, 14, 15.
    pub fn pay(&mut self, number: u64, cents: u64) -> Result<(), CabinetFault>
        ensures answer { result ≡ done_answer (books_of B.meaning self.old) number (Pay cents) }
        ensures after { books_of B.meaning self.new ≡ done_after (books_of B.meaning self.old) number (Pay cents) }
    {
        Ok(self.ledger.pay(number, cents)?)
    }

    // Closes an account that owes nothing and has nothing to settle. Refused by 3, 17, 7, 16.
    pub fn close(&mut self, number: u64) -> Result<(), CabinetFault>
        ensures answer { result ≡ done_answer (books_of B.meaning self.old) number Close }
        ensures after { books_of B.meaning self.new ≡ done_after (books_of B.meaning self.old) number Close }
    {
        Ok(self.ledger.close(number)?)
    }

    // Copies the account of a number into the place and says yes, or says no where it is vacant and leaves the place. Refused by 3, 17.
    pub fn show(&mut self, number: u64, place: &mut Account) -> Result<bool, CabinetFault>
        ensures answer { result ≡ shown_answer (books_of B.meaning self.old) number }
        ensures place { tenancy_of place.new ≡ show_place (load_answer (books_of B.meaning self.old).board number) (tenancy_of place.old) }
        ensures after { books_of B.meaning self.new ≡ shown_after (books_of B.meaning self.old) number }
    {
        Ok(self.ledger.show(number, place)?)
    }

    // Copies the row of a number into the place as the board holds it and says yes, or says no where none stands and leaves the place. Refused by 3.
    // It moves nothing, so it is none of the calls that a run is made of.
    pub fn row(&mut self, number: u64, place: &mut [u8; 128]) -> Result<bool, CabinetFault>
        ensures answer { result ≡ row_answer (books_of B.meaning self.old) number }
        ensures place { place.new ≡ read_place (books_of B.meaning self.old).board number place.old }
        ensures after { books_of B.meaning self.new ≡ row_after (books_of B.meaning self.old) number }
    {
        Ok(self.ledger.row(number, place)?)
    }
}
