// The life of an account on both boards, with the refusals that its calls can meet.
#![tactic(auto)]

#[cfg(test)]
mod sheets;

#[cfg(test)]
mod tests {
    use crate::sheets::OnePlan;
    use account::{Account, AccountForm, OpeningForm};
    use board::Board;
    use cabinet::Cabinet;
    use facts::ProfileForm;
    use house::House;
    use journal::{Journal, JournalPlan};
    use refusal::Layer;
    use row::encode;
    use run::{Answer, Call, run};
    use sheet::Sheet;
    use std::alloc::Global;
    use std::process::Abort;
    use std::test::Fail;
    use table::{Table, TablePlan};

    const LAST: u64 = u64::MAX;

    // An answer by its figures: of a bill the code, the months, the kWh by day and by night and the cents; of an account the next month, the balance and the indices of circuit 0.
    #[derive(Clone, Copy, PartialEq, Eq, Debug)]
    enum Told {
        Posted(u64, u64),
        Done,
        Billed(u64, u8, u64, u64, u64),
        Shown(u16, i64, u32, u32),
        Vacant,
        Refused(u8, Layer, u64),
    }

    fn told_by(answer: &Answer) -> Told {
        match answer {
            Answer::Posted(month, ne) => Told::Posted(*month, *ne),
            Answer::Done => Told::Done,
            Answer::Billed(bill) => Told::Billed(
                bill.code(),
                bill.months(),
                bill.day(),
                bill.night(),
                bill.cents(),
            ),
            Answer::Shown(account) => Told::Shown(
                account.next,
                account.balance,
                account.indices[0],
                account.indices[1],
            ),
            Answer::Vacant => Told::Vacant,
            Answer::Refused(refusal) => {
                Told::Refused(refusal.number, refusal.layer, refusal.place)
            }
        }
    }

    // Makes the calls, and each is answered as expected.
    fn answers<B: Board, S: Sheet>(
        rt: &impl Abort,
        heap: Global,
        cabinet: &mut Cabinet<B>,
        calls: &[Call<S>],
        expected: &[Told],
    ) -> Result<(), Fail> {
        let mut place = Vec::with_capacity(heap, calls.len())?;
        assert!(rt; run(cabinet, calls, &mut place).is_ok());
        assert_eq!(rt; place.len(), expected.len());
        for (answer, told) in place.iter().zip(expected) {
            assert_eq!(rt; told_by(answer), *told);
        }
        Ok(())
    }

    // A dwelling with one general circuit and this power, its registers at 999,990 and 5.
    fn form(power: u64) -> OpeningForm {
        OpeningForm {
            profile: ProfileForm {
                class: 0,
                marks: 0,
                power,
                exempt: 0,
                kinds: [1, 0, 0, 0, 0, 0],
            },
            first: 0,
            indices: [999_990, 5, 0, 0, 0, 0, 0, 0, 0, 0, 0, 0],
        }
    }

    // The row of an account of such a dwelling.
    fn row(state: u64, balance: i64) -> Result<[u8; 128], Fail> {
        let OpeningForm {
            profile,
            first,
            indices,
        } = form(100);
        let account = AccountForm {
            state,
            profile,
            next: first,
            indices,
            waiting: [0; 12],
            balance,
        };
        let account = Account::new(&account).map_err(|_| Fail::new("no account"))?;
        Ok(encode(&account))
    }

    fn post(s: u64) -> Call<OnePlan> {
        Call::Post {
            s,
            mx: 141_151,
            nc: 10_000,
        }
    }

    fn open(number: u64, power: u64) -> Call<OnePlan> {
        Call::Open {
            number,
            form: form(power),
        }
    }

    // A reading of circuit 0, and of the first register of circuit 1, which is unused.
    fn read(number: u64, day: u64, night: u64, unused: u64) -> Call<OnePlan> {
        Call::Read {
            number,
            indices: [day, night, unused, 0, 0, 0, 0, 0, 0, 0, 0, 0],
        }
    }

    fn settle(number: u64, end: u64, price: u64) -> Call<OnePlan> {
        Call::Settle {
            number,
            end,
            sheet: OnePlan::new(price),
        }
    }

    fn pay(number: u64, cents: u64) -> Call<OnePlan> {
        Call::Pay { number, cents }
    }

    fn close(number: u64) -> Call<OnePlan> {
        Call::Close { number }
    }

    fn show(number: u64) -> Call<OnePlan> {
        Call::Show { number }
    }

    fn ledger(number: u8, place: u64) -> Told {
        Told::Refused(number, Layer::Ledger, place)
    }

    fn posts_a_year<B: Board>(
        rt: &impl Abort,
        heap: Global,
        cabinet: &mut Cabinet<B>,
    ) -> Result<(), Fail> {
        for month in 0..12 {
            answers(
                rt,
                heap,
                cabinet,
                &[post(888_131)],
                &[Told::Posted(month, 10_000)],
            )?;
        }
        answers(
            rt,
            heap,
            cabinet,
            &[post(0)],
            &[Told::Refused(2, Layer::Cabinet, 12)],
        )
    }

    fn opens<B: Board>(
        rt: &impl Abort,
        heap: Global,
        cabinet: &mut Cabinet<B>,
    ) -> Result<(), Fail> {
        answers(
            rt,
            heap,
            cabinet,
            &[
                show(1),
                read(1, 0, 0, 0),
                open(3, 100),
                show(LAST),
                open(1, 0),
                open(1, 100),
                open(1, 100),
                show(1),
            ],
            &[
                Told::Vacant,
                ledger(7, 1),
                Told::Refused(3, Layer::Board, 3),
                Told::Refused(3, Layer::Board, LAST),
                ledger(5, 1),
                Told::Done,
                ledger(4, 1),
                Told::Shown(0, 0, 999_990, 5),
            ],
        )
    }

    fn reads<B: Board>(
        rt: &impl Abort,
        heap: Global,
        cabinet: &mut Cabinet<B>,
    ) -> Result<(), Fail> {
        answers(
            rt,
            heap,
            cabinet,
            &[
                settle(1, 11, 1),
                read(1, 1_000_000, 105, 0),
                read(1, 15, 105, 1),
                read(1, 999_989, 5, 0),
                read(1, 15, 105, 0),
                close(1),
                show(1),
            ],
            &[
                ledger(10, 1),
                ledger(8, 1),
                ledger(8, 1),
                ledger(9, 1),
                Told::Done,
                ledger(16, 1),
                Told::Shown(0, 0, 15, 105),
            ],
        )
    }

    // The same run of an account goes on with a sheet of another kind, an empty house sheet, which permits nothing.
    fn finds_no_plan<B: Board>(
        rt: &impl Abort,
        heap: Global,
        cabinet: &mut Cabinet<B>,
    ) -> Result<(), Fail> {
        answers(
            rt,
            heap,
            cabinet,
            &[
                Call::Settle {
                    number: 1,
                    end: 11,
                    sheet: House::new(),
                },
                Call::Show { number: 1 },
            ],
            &[
                Told::Refused(13, Layer::Cabinet, 1),
                Told::Shown(0, 0, 15, 105),
            ],
        )
    }

    // A year at 1,000.5 cents, of which the half is let go, and a month at 12,006 cents.
    fn settles<B: Board>(
        rt: &impl Abort,
        heap: Global,
        cabinet: &mut Cabinet<B>,
    ) -> Result<(), Fail> {
        let price = 1_440_720_000_000;
        answers(
            rt,
            heap,
            cabinet,
            &[
                settle(1, 12, price),
                settle(1, LAST, price),
                settle(1, 11, price),
                read(1, 15, 105, 0),
                settle(1, 11, price),
                settle(1, 12, price),
                post(888_131),
                settle(1, 12, price),
            ],
            &[
                ledger(11, 1),
                ledger(11, 1),
                Told::Billed(0, 12, 25, 100, 1_000),
                Told::Done,
                ledger(11, 1),
                Told::Refused(12, Layer::Cabinet, 1),
                Told::Posted(12, 10_000),
                Told::Billed(0, 1, 0, 0, 12_006),
            ],
        )
    }

    fn pays_and_closes<B: Board>(
        rt: &impl Abort,
        heap: Global,
        cabinet: &mut Cabinet<B>,
    ) -> Result<(), Fail> {
        answers(
            rt,
            heap,
            cabinet,
            &[
                pay(1, 0),
                pay(1, 1_000_000_001),
                pay(1, 13_005),
                close(1),
                show(1),
                pay(1, 1),
                close(1),
                show(1),
                pay(1, 1),
            ],
            &[
                ledger(14, 1),
                ledger(14, 1),
                Told::Done,
                ledger(16, 1),
                Told::Shown(13, 1, 15, 105),
                Told::Done,
                Told::Done,
                Told::Vacant,
                ledger(7, 1),
            ],
        )
    }

    // The cabinet keeps 1,200 months, and a posting beyond them is refused whatever its figures are.
    fn fills_the_months<B: Board + Drop>(
        rt: &impl Abort,
        heap: Global,
        board: B,
    ) -> Result<(), Fail> {
        let mut cabinet = Cabinet::new(heap, board)?;
        for month in 0..1_200 {
            answers(
                rt,
                heap,
                &mut cabinet,
                &[post(888_131)],
                &[Told::Posted(month, 10_000)],
            )?;
        }
        answers(
            rt,
            heap,
            &mut cabinet,
            &[post(888_131), post(0)],
            &[Told::Refused(1, Layer::Cabinet, 1_200); 2],
        )
    }

    // A whole life at the number 1 of a board of three.
    fn lives<B: Board + Drop>(rt: &impl Abort, heap: Global, board: B) -> Result<(), Fail> {
        let mut cabinet = Cabinet::new(heap, board)?;
        posts_a_year(rt, heap, &mut cabinet)?;
        opens(rt, heap, &mut cabinet)?;
        reads(rt, heap, &mut cabinet)?;
        finds_no_plan(rt, heap, &mut cabinet)?;
        settles(rt, heap, &mut cabinet)?;
        pays_and_closes(rt, heap, &mut cabinet)
    }

    // Rows of an earlier user: two accounts a cent from the limits of a balance, and bytes that are no account.
    fn fills<B: Board>(board: &mut B) -> Result<(), Fail> {
        board.store(0, &row(2, 999_999_999_999)?)?;
        board.store(1, &row(1, -999_999_999_999)?)?;
        board.store(2, &[255; 128])?;
        Ok(())
    }

    fn keeps_to_limits<B: Board>(
        rt: &impl Abort,
        heap: Global,
        cabinet: &mut Cabinet<B>,
    ) -> Result<(), Fail> {
        answers(
            rt,
            heap,
            cabinet,
            &[
                post(888_131),
                settle(0, 0, 240_000_000),
                settle(0, 0, 120_000_000),
                show(0),
                pay(1, 2),
                pay(1, 1),
                show(1),
            ],
            &[
                Told::Posted(0, 10_000),
                ledger(15, 0),
                Told::Billed(0, 1, 0, 0, 1),
                Told::Shown(1, 1_000_000_000_000, 999_990, 5),
                ledger(15, 1),
                Told::Done,
                Told::Shown(0, -1_000_000_000_000, 999_990, 5),
            ],
        )
    }

    fn leaves_a_broken_row<B: Board>(
        rt: &impl Abort,
        heap: Global,
        cabinet: &mut Cabinet<B>,
    ) -> Result<(), Fail> {
        answers(
            rt,
            heap,
            cabinet,
            &[
                show(2),
                open(2, 100),
                read(2, 0, 0, 0),
                settle(2, 0, 1),
                pay(2, 0),
                close(2),
            ],
            &[ledger(17, 2); 6],
        )
    }

    // The calls on a board with rows of an earlier user.
    fn takes_over<B: Board + Drop>(
        rt: &impl Abort,
        heap: Global,
        mut board: B,
    ) -> Result<(), Fail> {
        fills(&mut board)?;
        let mut cabinet = Cabinet::new(heap, board)?;
        keeps_to_limits(rt, heap, &mut cabinet)?;
        leaves_a_broken_row(rt, heap, &mut cabinet)
    }

    fn table(heap: Global) -> Result<Table, Fail> {
        TablePlan::new(3, vec![in heap; 0u8; 387]?)
            .map(|plan| plan.make())
            .map_err(|_| Fail::new("unfit"))
    }

    fn journal(heap: Global, limit: u64) -> Result<Journal, Fail> {
        JournalPlan::new(3, limit, vec![in heap; 0u8; 524]?)
            .map(|plan| plan.make())
            .map_err(|_| Fail::new("unfit"))
    }

    #[test]
    fn a_life_on_a_table(rt: HostRuntime) -> Result<(), Fail> {
        lives(&rt, rt.alloc(), table(rt.alloc())?)
    }

    #[test]
    fn a_life_on_a_journal(rt: HostRuntime) -> Result<(), Fail> {
        lives(&rt, rt.alloc(), journal(rt.alloc(), 3)?)
    }

    #[test]
    fn all_months_posted_on_both_boards(rt: HostRuntime) -> Result<(), Fail> {
        fills_the_months(&rt, rt.alloc(), table(rt.alloc())?)?;
        fills_the_months(&rt, rt.alloc(), journal(rt.alloc(), 3)?)
    }

    #[test]
    fn rows_of_an_earlier_user_on_a_table(rt: HostRuntime) -> Result<(), Fail> {
        takes_over(&rt, rt.alloc(), table(rt.alloc())?)
    }

    #[test]
    fn rows_of_an_earlier_user_on_a_journal(rt: HostRuntime) -> Result<(), Fail> {
        takes_over(&rt, rt.alloc(), journal(rt.alloc(), 3)?)
    }

    #[test]
    fn a_full_board_takes_an_account_once_another_is_closed(rt: HostRuntime) -> Result<(), Fail> {
        let mut cabinet = Cabinet::new(rt.alloc(), journal(rt.alloc(), 1)?)?;
        answers(
            &rt,
            rt.alloc(),
            &mut cabinet,
            &[open(0, 100), open(1, 100), show(1), close(0), open(1, 100)],
            &[
                Told::Done,
                Told::Refused(6, Layer::Board, 1),
                Told::Vacant,
                Told::Done,
                Told::Done,
            ],
        )
    }

    // Without room no call is made; with it the answers come behind those of the run before.
    #[test]
    fn a_run_needs_room_for_its_answers(rt: HostRuntime) -> Result<(), Fail> {
        let mut cabinet = Cabinet::new(rt.alloc(), table(rt.alloc())?)?;
        let mut place = Vec::new(rt.alloc());
        assert!(rt; run(&mut cabinet, &[open(0, 100)], &mut place).is_err());
        assert!(rt; place.is_empty());
        answers(&rt, rt.alloc(), &mut cabinet, &[show(0)], &[Told::Vacant])?;
        place.reserve(3)?;
        assert!(rt; run(&mut cabinet, &[open(0, 100), pay(0, 7)], &mut place).is_ok());
        assert!(rt; run(&mut cabinet, &[show(0)], &mut place).is_ok());
        assert!(rt; place.len() == 3);
        assert_eq!(rt; told_by(&place[1]), Told::Done);
        assert_eq!(rt; told_by(&place[2]), Told::Shown(0, -7, 999_990, 5));
        Ok(())
    }
}
