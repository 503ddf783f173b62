// Reading an account from its row, and keeping it there.
ghost use Rattle.std.specs.Prelude.{◌≡◌};
ghost use Rattle.std.specs.Option.{option_map};
ghost use Rattle.facts.specs.Forms.{made};
ghost use Rattle.account.specs.Tenancy.{tenancy_of};
ghost use Rattle.board.specs.Meaning.{read_after};
ghost use Rattle.ledger.specs.Calls.{load_answer, keep_answer, keep_after};

use super::Ledger;
use crate::fault::LedgerFault;
use account::Account;
use board::Board;
use row::{decode, encode};

impl<B: Board> Ledger<B> {
    // The account of a number, if it has one.
    pub(super) fn load(&mut self, number: u64) -> Result<Option<Account>, LedgerFault>
        ensures answer { made (option_map tenancy_of) result ≡ load_answer (B.meaning self.old.board) number }
        ensures after { B.meaning self.new.board ≡ read_after (B.meaning self.old.board) number }
    {
        let mut row = [0u8; 128];
        if !self.board.read(number, &mut row)? {
            return Ok(None);
        }
        let account = decode(&row).map_err(|fault| LedgerFault::Account(number, fault))?;
        Ok(Some(account))
    }

    // Keeps an account as the row of a number, or clears the row where there is none.
    pub(super) fn keep(&mut self, number: u64, account: &Option<Account>) -> Result<(), LedgerFault>
        ensures answer { result ≡ keep_answer (B.meaning self.old.board) number (option_map tenancy_of account.now) }
        ensures after { B.meaning self.new.board ≡ keep_after (B.meaning self.old.board) number (option_map tenancy_of account.now) }
    {
        match account {
            Some(account) => self.board.store(number, &encode(account))?,
            None => self.board.clear(number)?,
        }
        Ok(())
    }
}
