// Writing an account's row.
ghost use Rattle.std.specs.Prelude.{◌≡◌, ◌+◌, ◌<◌, ◌≤◌, [], ◌∷◌, ◌++◌, map, length};
ghost use Rattle.std.proofs.Common.{of_z};
ghost use Rattle.std.specs.Int.{w64};
ghost use Rattle.std.specs.List.{flat_map};
ghost use Rattle.facts.specs.Numbers.{kind_number};
ghost use Rattle.account.specs.Tenancy.{tenancy_of};
ghost use Rattle.row.specs.Bytes.{be32, be64};
ghost use Rattle.row.specs.Written.{written};
ghost use Rattle.row.specs.Rows.{head_of, row_of};

use crate::writer::Writer;
use account::Account;
use facts::Kind;

impl Writer {
    fn new() -> Writer
        ensures text { written result ≡ [] }
        ensures at { result.at ≡ 0 }
    {
        Writer {
            bytes: [0; 128],
            at: 0,
        }
    }

    fn put(&mut self, byte: u8)
        requires { self.old.at < 128 }
        ensures text { written self.new ≡ written self.old ++ byte ∷ [] }
        ensures at { self.new.at ≡ self.old.at + 1 }
    {
        self.bytes[self.at] = byte;
        self.at += 1;
    }

    fn put_all(&mut self, more: &[u8])
        requires { self.old.at + length more.now ≤ 128 }
        ensures text { written self.new ≡ written self.old ++ more.now }
        ensures at { self.new.at ≡ self.old.at + length more.now }
    {
        let end = self.at + more.len();
        self.bytes[self.at..end].copy_from_slice(more);
        self.at = end;
    }

    fn put_kinds(&mut self, kinds: &[Kind; 6])
        requires { self.old.at + 6 ≤ 128 }
        ensures text { written self.new ≡ written self.old ++ map kind_number kinds.now }
        ensures at { self.new.at ≡ self.old.at + 6 }
    {
        for kind in kinds {
            self.put(u8::from(*kind));
        }
    }

    fn put_words(&mut self, words: &[u32; 12])
        requires { self.old.at + 48 ≤ 128 }
        ensures text { written self.new ≡ written self.old ++ flat_map be32 words.now }
        ensures at { self.new.at ≡ self.old.at + 48 }
    {
        for word in words {
            self.put_all(&word.to_be_bytes());
        }
    }

    // State, class, marks, power and exempt power.
    fn put_head(&mut self, account: &Account)
        requires { self.old.at + 7 ≤ 128 }
        ensures text { written self.new ≡ written self.old ++ head_of (tenancy_of account.now) }
        ensures at { self.new.at ≡ self.old.at + 7 }
    {
        self.put(account.state.into());
        self.put(account.profile.class.into());
        self.put(account.profile.marks.into());
        self.put_all(&account.profile.power.to_be_bytes());
        self.put_all(&account.profile.exempt.to_be_bytes());
    }

    fn put_balance(&mut self, balance: i64)
        requires { self.old.at + 8 ≤ 128 }
        ensures text { written self.new ≡ written self.old ++ be64 (of_z w64 balance) }
        ensures at { self.new.at ≡ self.old.at + 8 }
    {
        self.put_all(&balance.to_be_bytes());
    }

    fn finish(self) -> [u8; 128]
        requires { self.at ≡ 128 }
        ensures { result ≡ written self }
    {
        let Writer { bytes, at: _ } = self;
        bytes
    }
}

// The row of an account.
pub fn encode(account: &Account) -> [u8; 128]
    ensures { result ≡ row_of (tenancy_of account.now) }
{
    let mut row = Writer::new();
    row.put_head(account);
    row.put_kinds(&account.profile.kinds);
    row.put_all(&account.next.to_be_bytes());
    row.put_words(&account.indices);
    row.put_words(&account.waiting);
    row.put_balance(account.balance);
    row.put_all(&[0; 9]);
    row.finish()
}
