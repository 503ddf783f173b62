// Tests of accounts: registers that roll over, refusals and their order, balances at their limits.
#![tactic(auto)]

#[cfg(test)]
mod tests {
    use account::{Account, AccountFault, AccountForm, Hours, OpeningForm, State};
    use facts::ProfileForm;
    use std::test::Fail;

    // A residential dwelling of 10 kVA with one general circuit.
    fn profile() -> ProfileForm {
        ProfileForm {
            class: 0,
            marks: 1,
            power: 100,
            exempt: 0,
            kinds: [1, 0, 0, 0, 0, 0],
        }
    }

    // Twelve figures with these of the first circuit.
    fn figures(day: u64, night: u64) -> [u64; 12] {
        [day, night, 0, 0, 0, 0, 0, 0, 0, 0, 0, 0]
    }

    fn opening(first: u64, day: u64) -> OpeningForm {
        OpeningForm {
            profile: profile(),
            first,
            indices: figures(day, 0),
        }
    }

    // A ready account with nothing waiting.
    fn ready(next: u64, balance: i64) -> AccountForm {
        AccountForm {
            state: 2,
            profile: profile(),
            next,
            indices: figures(0, 0),
            waiting: figures(0, 0),
            balance,
        }
    }

    // The number of the refusal, or 0.
    fn refusal(r: Result<Account, AccountFault>) -> u8 {
        r.map_or_else(u8::from, |_| 0)
    }

    #[test]
    fn a_register_rolls_over(rt: HostRuntime) -> Result<(), Fail> {
        let account = Account::open(State::Vacant, &opening(0, 999_990))?;
        let account = account.read(&figures(15, 7))?;
        assert_eq!(rt; account.state, State::Ready);
        assert_eq!(rt; account.waiting_in_all(Hours::Day), 25);
        assert_eq!(rt; account.waiting_in_all(Hours::Night), 7);
        let account = account.read(&figures(20, 7))?;
        assert_eq!(rt; account.waiting_in_all(Hours::Day), 30);
        Ok(())
    }

    #[test]
    fn one_lower_is_a_whole_round(rt: HostRuntime) -> Result<(), Fail> {
        let account = Account::open(State::Vacant, &opening(0, 5))?;
        assert_eq!(rt; refusal(account.read(&figures(4, 0))), 9);
        assert_eq!(rt; refusal(account.read(&figures(100_005, 0))), 0);
        assert_eq!(rt; refusal(account.read(&figures(100_006, 0))), 9);
        Ok(())
    }

    #[test]
    fn indices_come_before_kwh(rt: HostRuntime) -> Result<(), Fail> {
        let account = Account::open(State::Vacant, &opening(0, 5))?;
        assert_eq!(rt; refusal(account.read(&figures(4, 1_000_000))), 8);
        assert_eq!(rt;
            refusal(account.read(&[4, 0, 0, 0, 0, 0, 0, 0, 0, 0, 0, 1])),
            8
        );
        Ok(())
    }

    #[test]
    fn openings_have_their_limits(rt: HostRuntime) {
        assert_eq!(rt;
            refusal(Account::open(State::Vacant, &opening(1_199, 999_999))),
            0
        );
        assert_eq!(rt;
            refusal(Account::open(State::Vacant, &opening(1_200, 0))),
            5
        );
        assert_eq!(rt;
            refusal(Account::open(State::Vacant, &opening(0, 1_000_000))),
            5
        );
        assert_eq!(rt;
            refusal(Account::open(State::Running, &opening(1_200, 0))),
            4
        );
    }

    #[test]
    fn periods_have_twelve_months_at_most(rt: HostRuntime) -> Result<(), Fail> {
        let account = Account::new(&ready(100, 0))?;
        assert_eq!(rt; account.months_to(100)?, 1);
        assert_eq!(rt; account.months_to(111)?, 12);
        assert_eq!(rt; refusal(account.settle(99, 0)), 11);
        assert_eq!(rt; refusal(account.settle(112, 0)), 11);
        assert_eq!(rt; refusal(account.settle(18_446_744_073_709_551_615, 0)), 11);
        let account = account.settle(111, 12)?;
        assert_eq!(rt; account.next, 112);
        assert_eq!(rt; refusal(account.settle(112, 0)), 10);
        Ok(())
    }

    #[test]
    fn balances_have_two_limits(rt: HostRuntime) -> Result<(), Fail> {
        let owing = Account::new(&ready(0, 999_999_999_990))?;
        assert_eq!(rt; refusal(owing.settle(0, 10)), 0);
        assert_eq!(rt; refusal(owing.settle(0, 11)), 15);
        assert_eq!(rt; refusal(owing.settle(0, 18_446_744_073_709_551_615)), 15);
        let owed = Account::new(&ready(0, -999_999_999_990))?;
        assert_eq!(rt; refusal(owed.pay(10)), 0);
        assert_eq!(rt; refusal(owed.pay(11)), 15);
        assert_eq!(rt; refusal(owed.pay(0)), 14);
        assert_eq!(rt; refusal(owed.pay(1_000_000_001)), 14);
        Ok(())
    }

    #[test]
    fn only_a_settled_account_without_balance_is_closed(rt: HostRuntime) -> Result<(), Fail> {
        let account = Account::open(State::Vacant, &opening(0, 0))?;
        assert!(rt; account.close().is_ok());
        assert!(rt; account.pay(1)?.close().is_err());
        assert!(rt; account.read(&figures(0, 0))?.close().is_err());
        Ok(())
    }
}
