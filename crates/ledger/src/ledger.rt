// Accounts on a board.
ghost use Rattle.std.specs.Prelude.{◌≡◌};

// The accounts of an estate, each the row of its number on a board.
#[derive(Drop)]
pub struct Ledger<B> {
    board: B,
}

impl<B> Ledger<B> {
    // The ledger over a board as it stands.
    pub fn new(board: B) -> Ledger<B>
        ensures { result.board ≡ board }
    {
        Ledger { board }
    }

    // The board as it stands.
    pub fn board(&self) -> &B
        ensures { result.now ≡ self.now.board }
    {
        &self.board
    }
}

mod calls;
mod rows;
mod settling;
