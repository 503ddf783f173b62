// The two halves of settling that are the ledger's. Between them the price is found.
ghost use Rattle.std.specs.Prelude.{◌≡◌, IfOk};
ghost use Rattle.facts.specs.Forms.{made};
ghost use Rattle.account.specs.Tenancy.{tenancy_of};
ghost use Rattle.board.specs.Meaning.{read_after};
ghost use Rattle.ledger.specs.Calls.{due_answer, due_of, book_answer, book_after};

use super::Ledger;
use crate::due::Due;
use crate::fault::LedgerFault;
use account::{Account, AccountFault};
use board::Board;

impl<B: Board> Ledger<B> {
    // The period that is due at a number up to an end month. Refused by 3, 17, 7, 10, 11.
    pub fn due(&mut self, number: u64, end: u64) -> Result<Due, LedgerFault>
        ensures answer { made due_of result ≡ due_answer (B.meaning self.old.board) number end }
        ensures whose { IfOk result (λ d. (d.number ≡ number) × (d.end ≡ end)) }
        ensures after { B.meaning self.new.board ≡ read_after (B.meaning self.old.board) number }
    {
        let account = self
            .load(number)?
            .ok_or(LedgerFault::Account(number, AccountFault::Vacant))?;
        let months = account
            .months_to(end)
            .map_err(|fault| LedgerFault::Account(number, fault))?;
        Ok(Due {
            number,
            account,
            end,
            months,
        })
    }

    // Books so many cents for the period up to an end month, and keeps the account. Refused by 15.
    pub fn book(
        &mut self,
        number: u64,
        account: Account,
        end: u64,
        cents: u64,
    ) -> Result<(), LedgerFault>
        ensures answer { result ≡ book_answer (B.meaning self.old.board) number end cents (tenancy_of account) }
        ensures after { B.meaning self.new.board ≡ book_after (B.meaning self.old.board) number end cents (tenancy_of account) }
    {
        let settled = account
            .settle(end, cents)
            .map_err(|fault| LedgerFault::Account(number, fault))?;
        self.keep(number, &Some(settled))
    }
}
