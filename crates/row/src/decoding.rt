// Reading an account from its row.
ghost use Rattle.std.specs.Prelude.{◌≡◌, ◌+◌, ◌*◌, ◌≤◌};
ghost use Rattle.std.proofs.Common.{to_z};
ghost use Rattle.std.specs.Int.{w64};
ghost use Rattle.facts.specs.Forms.{made};
ghost use Rattle.account.specs.Tenancy.{tenancy_of};
ghost use Rattle.row.specs.Bytes.{at32, at64};
ghost use Rattle.row.specs.Rows.{kind_numbers_at, profile_at, words_at, form_at, account_of};
ghost use Rattle.row.specs.Laws.{ReadFrom};

use crate::encoding::encode;
use account::{Account, AccountFault, AccountForm};
use facts::ProfileForm;
use std::array;

// The numbers of the six kinds.
fn kind_numbers_at(row: &[u8; 128]) -> [u64; 6]
    ensures { result ≡ kind_numbers_at row.now }
{
    array::from_fn(|circuit| u64::from(row[7 + circuit]))
}

// Class, marks, powers and kinds.
fn profile_at(row: &[u8; 128]) -> ProfileForm
    ensures { result ≡ profile_at row.now }
{
    ProfileForm {
        class: u64::from(row[1]),
        marks: u64::from(row[2]),
        power: u64::from(u16::from_be_bytes([row[3], row[4]])),
        exempt: u64::from(u16::from_be_bytes([row[5], row[6]])),
        kinds: kind_numbers_at(row),
    }
}

// A number of four bytes.
fn word_at(row: &[u8; 128], at: usize) -> u32
    requires { at + 4 ≤ 128 }
    ensures { result ≡ at32 row.now at }
{
    u32::from_be_bytes([row[at], row[at + 1], row[at + 2], row[at + 3]])
}

// Twelve numbers of four bytes.
fn words_at(row: &[u8; 128], from: usize) -> [u64; 12]
    requires { from + 48 ≤ 128 }
    ensures { result ≡ words_at row.now from }
{
    array::from_fn(
        |register|
            requires { from + 4 * register + 4 ≤ 128 }
            ensures { result ≡ at32 row.entry.now (from + 4 * register) }
        { u64::from(word_at(row, from + 4 * register)) },
    )
}

fn balance_at(row: &[u8; 128]) -> i64
    ensures { result ≡ to_z w64 (at64 row.now 111) }
{
    i64::from_be_bytes([
        row[111], row[112], row[113], row[114], row[115], row[116], row[117], row[118],
    ])
}

// The numbers of a row.
fn form_at(row: &[u8; 128]) -> AccountForm
    ensures { result ≡ form_at row.now }
{
    AccountForm {
        state: u64::from(row[0]),
        profile: profile_at(row),
        next: u64::from(u16::from_be_bytes([row[13], row[14]])),
        indices: words_at(row, 15),
        waiting: words_at(row, 63),
        balance: balance_at(row),
    }
}

// The account that has this row: the one that its numbers make, if these bytes are its row.
pub fn decode(row: &[u8; 128]) -> Result<Account, AccountFault>
    ensures value { made tenancy_of result ≡ account_of row.now }
    ensures whose { ReadFrom row.now (made tenancy_of result) }
{
    let account = Account::new(&form_at(row))?;
    if encode(&account) != *row {
        return Err(AccountFault::BrokenRow);
    }
    Ok(account)
}
