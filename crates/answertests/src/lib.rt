// Tests of answers: how they are written, and texts that are no answers.
#![tactic(auto)]

#[cfg(test)]
mod tests {
    use account::AccountForm;
    use answers::{Answer, BillFigures};
    use facts::ProfileForm;
    use refusal::{Layer, Refusal};
    use reread::read_answer;
    use std::alloc::{AllocError, Global};
    use std::test::Fail;

    // Whether an answer is written as this text.
    fn is_written(heap: Global, answer: &Answer, text: &str) -> Result<bool, AllocError> {
        let written = format!(in heap; "{answer}")?;
        Ok(written.as_str() == text)
    }

    // An account with another number in each place.
    fn account() -> AccountForm {
        AccountForm {
            state: 2,
            profile: ProfileForm {
                class: 3,
                marks: 4,
                power: 5,
                exempt: 6,
                kinds: [7, 8, 9, 10, 11, 12],
            },
            next: 13,
            indices: [14, 15, 16, 17, 18, 19, 20, 21, 22, 23, 24, 25],
            waiting: [26, 27, 28, 29, 30, 31, 32, 33, 34, 35, 36, 37],
            balance: -38,
        }
    }

    #[test]
    fn answers_are_written_in_their_forms(rt: HostRuntime) -> Result<(), Fail> {
        let heap = rt.alloc();
        let refusal = Refusal {
            number: 17,
            layer: Layer::Ledger,
            place: 4_095,
        };
        let bill = BillFigures {
            code: 750,
            months: 12,
            day: 1,
            night: 2,
            fixed: 3,
            energy: 4,
            cents: 5,
        };
        assert!(rt; is_written(heap, &Answer::Refused(refusal), "refused 17 ledger 4095")?);
        assert!(rt; is_written(heap, &Answer::Bill(bill), "bill 750 12 1 2 3 4 5")?);
        assert!(rt;
            is_written(
                heap,
                &Answer::Posted(1_199, u64::MAX),
                "posted 1199 18446744073709551615",
            )?
        );
        assert!(rt; is_written(heap, &Answer::Made(4_096, 1), "made 4096 1")?);
        Ok(())
    }

    #[test]
    fn an_account_is_written_in_its_order(rt: HostRuntime) -> Result<(), Fail> {
        let text =
            "account ready 3 4 5 6 7 8 9 10 11 12 13 14 15 16 17 18 19 20 21 22 23 24 25 26 27 28 29 30 31 32 33 34 35 36 37 -38";
        assert!(rt; is_written(rt.alloc(), &Answer::Account(account()), text)?);
        Ok(())
    }

    // Numbers too few, too many and too high; words behind a word that stands alone; words of another case.
    const NO_ANSWERS: [&str; 17] = [
        "",
        " ",
        "lines",
        "Done",
        "parts 1 2",
        "parts 1 2 3 4",
        "parts 1 2 -3",
        "parts 1 2 0x3",
        "tenths 65536",
        "lines 18446744073709551616",
        "done 1",
        "vacant running",
        "refused 256 board 0",
        "refused 1 Board 0",
        "refused 1 board",
        "row 00",
        "row -",
    ];

    #[test]
    fn texts_that_are_no_answers(rt: HostRuntime) {
        for text in NO_ANSWERS {
            assert!(rt; read_answer(text.as_bytes()).is_none(), "{}", text);
        }
    }

    // An account's state is a word, and its balance no zero with a sign and none beyond 64 bits.
    const NO_ACCOUNTS: [&str; 5] = [
        "account 2 3 4 5 6 7 8 9 10 11 12 13 14 15 16 17 18 19 20 21 22 23 24 25 26 27 28 29 30 31 32 33 34 35 36 37 0",
        "account ready 3 4 5 6 7 8 9 10 11 12 13 14 15 16 17 18 19 20 21 22 23 24 25 26 27 28 29 30 31 32 33 34 35 36 37 -0",
        "account ready 3 4 5 6 7 8 9 10 11 12 13 14 15 16 17 18 19 20 21 22 23 24 25 26 27 28 29 30 31 32 33 34 35 36 37 9223372036854775808",
        "account ready 3 4 5 6 7 8 9 10 11 12 13 14 15 16 17 18 19 20 21 22 23 24 25 26 27 28 29 30 31 32 33 34 35 36 37 -9223372036854775809",
        "account ready 3 4 5 6 7 8 9 10 11 12 13 14 15 16 17 18 19 20 21 22 23 24 25 26 27 28 29 30 31 32 33 34 35 36 37",
    ];

    #[test]
    fn accounts_that_are_no_answers(rt: HostRuntime) {
        for text in NO_ACCOUNTS {
            assert!(rt; read_answer(text.as_bytes()).is_none(), "{}", text);
        }
    }
}
