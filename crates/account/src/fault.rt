// Why an account refuses an event, or a row is none.
ghost use Rattle.std.specs.Prelude.{◌≡◌};
ghost use Rattle.account.specs.declared.fault.AccountFault.TheVariants.{OutsideRules as Outside, BrokenRow as Broken};
ghost use Rattle.account.specs.Faults.{fault_number};

use common::UnknownNumber;
use facts::FactsFault;

// The causes; each is counted to the ledger, and its place is the number of the account.
#[derive(Clone, Copy, PartialEq, Eq, Debug)]
pub enum AccountFault {
    // an opening where an account stands
    NotVacant,
    // a profile, a first month or a starting index outside its rule
    OutsideRules,
    // any other event where none stands
    Vacant,
    // an index that its register cannot show
    IndexOutside,
    // kWh of a reading, or waiting after it, above their limit
    TooManyKwh,
    // a settlement without a reading
    NotReady,
    // a period that ends before it begins or has more than twelve months
    PeriodOutside,
    PaymentOutside,
    BalanceOutside,
    // a closing with a reading that is not settled, or with a balance
    NotClosable,
    // a row that is not the writing of an account
    BrokenRow,
}

// A profile outside its limits is outside the rules.
impl From<FactsFault> for AccountFault {
    ghost from_gives = { λ _ fault. fault ≡ Outside };

    fn from(_outside: FactsFault) -> AccountFault {
        AccountFault::OutsideRules
    }
}

// A number that is no state stands in no row of an account.
impl From<UnknownNumber> for AccountFault {
    ghost from_gives = { λ _ fault. fault ≡ Broken };

    fn from(_number: UnknownNumber) -> AccountFault {
        AccountFault::BrokenRow
    }
}

// The number of the refusal that a cause is.
impl From<AccountFault> for u8 {
    ghost from_gives = { λ fault number. number ≡ fault_number fault };

    fn from(fault: AccountFault) -> u8 {
        match fault {
            AccountFault::NotVacant => 4,
            AccountFault::OutsideRules => 5,
            AccountFault::Vacant => 7,
            AccountFault::IndexOutside => 8,
            AccountFault::TooManyKwh => 9,
            AccountFault::NotReady => 10,
            AccountFault::PeriodOutside => 11,
            AccountFault::PaymentOutside => 14,
            AccountFault::BalanceOutside => 15,
            AccountFault::NotClosable => 16,
            AccountFault::BrokenRow => 17,
        }
    }
}
