// Whether bytes are an account's row.
ghost use Rattle.std.specs.Prelude.{◌≡◌};
ghost use Rattle.facts.specs.Forms.{made};
ghost use Rattle.account.specs.Tenancy.{tenancy_of};
ghost use Rattle.exports.specs.Rows.{read_status, row_status, TellsRow};

use account::{Account, AccountFault};
use row::decode;

// The account whose row the bytes are.
fn account_in(row: &[u8]) -> Result<Account, AccountFault>
    ensures { read_status (made tenancy_of result) ≡ row_status row.now }
{
    let row = <&[u8; 128]>::try_from(row).map_err(|_| AccountFault::BrokenRow)?;
    decode(row)
}

// 0 where the bytes are the row of an account, and 17 where they are not.
#[unsafe(no_mangle)]
pub extern "C" fn funderaky_row_check(row: &[u8]) -> u64
    ensures status { result ≡ row_status row.now }
    ensures exactly { TellsRow row.now result }
{
    account_in(row).map_or(17, |_| 0)
}
