// The calls on one account that need no price.
ghost use Rattle.std.specs.Prelude.{◌≡◌};
ghost use Rattle.account.specs.declared.event.Event.TheVariants.{Open, Read, Pay, Close};
ghost use Rattle.account.specs.Steps.{stepped};
ghost use Rattle.account.specs.Tenancy.{tenancy_of};
ghost use Rattle.board.specs.Meaning.{read_place, read_after};
ghost use Rattle.ledger.specs.Calls.{load_answer, call_answer, call_after, show_answer, show_place, row_answer};

use super::Ledger;
use crate::fault::LedgerFault;
use account::{Account, Event, OpeningForm, step};
use board::Board;

impl<B: Board> Ledger<B> {
    // One event on the account of a number: the row is read once, and stored or cleared at most once.
    fn apply(&mut self, number: u64, event: &Event) -> Result<(), LedgerFault>
        ensures answer { result ≡ call_answer (B.meaning self.old.board) number (stepped event.now) }
        ensures after { B.meaning self.new.board ≡ call_after (B.meaning self.old.board) number (stepped event.now) }
    {
        let found = self.load(number)?;
        let next = step(found, event).map_err(|fault| LedgerFault::Account(number, fault))?;
        self.keep(number, &next)
    }

    // Opens an account at a vacant number. Refused by 3, 17, 4, 5, 6.
    pub fn open(&mut self, number: u64, form: &OpeningForm) -> Result<(), LedgerFault>
        ensures answer { result ≡ call_answer (B.meaning self.old.board) number (stepped (Open form.now)) }
        ensures after { B.meaning self.new.board ≡ call_after (B.meaning self.old.board) number (stepped (Open form.now)) }
    {
        self.apply(number, &Event::Open(*form))
    }

    // Takes a reading of the twelve registers. Refused by 3, 17, 7, 8, 9.
    pub fn read(&mut self, number: u64, indices: &[u64; 12]) -> Result<(), LedgerFault>
        ensures answer { result ≡ call_answer (B.meaning self.old.board) number (stepped (Read indices.now)) }
        ensures after { B.meaning self.new.board ≡ call_after (B.meaning self.old.board) number (stepped (Read indices.now)) }
    {
        self.apply(number, &Event::Read(*indices))
    }

    // Takes a payment. Refused by 3, 17, 7, 14, 15.
    pub fn pay(&mut self, number: u64, cents: u64) -> Result<(), LedgerFault>
        ensures answer { result ≡ call_answer (B.meaning self.old.board) number (stepped (Pay cents)) }
        ensures after { B.meaning self.new.board ≡ call_after (B.meaning self.old.board) number (stepped (Pay cents)) }
    {
        self.apply(number, &Event::Pay(cents))
    }

    // Closes an account that owes nothing and has nothing to settle. Refused by 3, 17, 7, 16.
    pub fn close(&mut self, number: u64) -> Result<(), LedgerFault>
        ensures answer { result ≡ call_answer (B.meaning self.old.board) number (stepped Close) }
        ensures after { B.meaning self.new.board ≡ call_after (B.meaning self.old.board) number (stepped Close) }
    {
        self.apply(number, &Event::Close)
    }

    // Copies the account of a number into the place and says yes, or says no where it is vacant and leaves the place. Refused by 3, 17.
    pub fn show(&mut self, number: u64, place: &mut Account) -> Result<bool, LedgerFault>
        ensures answer { result ≡ show_answer (B.meaning self.old.board) number }
        ensures place { tenancy_of place.new ≡ show_place (load_answer (B.meaning self.old.board) number) (tenancy_of place.old) }
        ensures after { B.meaning self.new.board ≡ read_after (B.meaning self.old.board) number }
    {
        match self.load(number)? {
            Some(account) => {
                *place = account;
                Ok(true)
            }
            None => Ok(false),
        }
    }

    // Copies the row of a number into the place as the board holds it and says yes, or says no where none stands and leaves the place. Refused by 3.
    // It is for whoever looks at the board behind the accounts, and no event of an account.
    pub fn row(&mut self, number: u64, place: &mut [u8; 128]) -> Result<bool, LedgerFault>
        ensures answer { result ≡ row_answer (B.meaning self.old.board) number }
        ensures place { place.new ≡ read_place (B.meaning self.old.board) number place.old }
        ensures after { B.meaning self.new.board ≡ read_after (B.meaning self.old.board) number }
    {
        Ok(self.board.read(number, place)?)
    }
}
