// What rows and accounts are to each other.
ghost use Rattle.row.specs.Laws.{Rows-are-read, Accounts-come-back, Rows-tell-apart};

// Bytes are read as the account whose row they are, and refused as 17 where they are no account's row; an account written and read again is the same account; two accounts never have one row.
pub fn rows_stand_for_accounts()
    ensures read { Rows-are-read }
    ensures back { Accounts-come-back }
    ensures apart { Rows-tell-apart }
{}
