// Tests of rows: a row with every byte damaged in turn.
#![tactic(auto)]

#[cfg(test)]
mod tests {
    use account::{Account, AccountFault, AccountForm};
    use facts::ProfileForm;
    use row::{decode, encode};
    use std::test::Fail;

    // A ready account with figures in every field.
    fn account() -> Result<Account, AccountFault> {
        Account::new(&AccountForm {
            state: 2,
            profile: ProfileForm {
                class: 0,
                marks: 5,
                power: 300,
                exempt: 20,
                kinds: [1, 2, 3, 1, 0, 1],
            },
            next: 259,
            indices: [999_999, 1, 66_051, 4, 5, 6, 7, 8, 0, 0, 11, 12],
            waiting: [100_000, 1, 66_051, 4, 5, 6, 7, 8, 0, 0, 11, 12],
            balance: -2,
        })
    }

    #[test]
    fn a_row_is_written_high_byte_first(rt: HostRuntime) -> Result<(), Fail> {
        let row = encode(&account()?);
        assert_eq!(rt;
            [row[0], row[1], row[2], row[3], row[4], row[5], row[6]],
            [2, 0, 5, 1, 44, 0, 20]
        );
        assert_eq!(rt;
            [row[7], row[8], row[9], row[10], row[11], row[12]],
            [1, 2, 3, 1, 0, 1]
        );
        assert_eq!(rt; [row[13], row[14]], [1, 3]);
        assert_eq!(rt; [row[15], row[16], row[17], row[18]], [0, 15, 66, 63]);
        assert_eq!(rt; [row[63], row[64], row[65], row[66]], [0, 1, 134, 160]);
        assert_eq!(rt;
            [row[111], row[117], row[118], row[119], row[127]],
            [255, 255, 254, 0, 0]
        );
        Ok(())
    }

    // Each byte is set to each other value; what is accepted is the row of the account that was read.
    #[test]
    fn a_damaged_row_is_refused_or_another_accounts(rt: HostRuntime) -> Result<(), Fail> {
        let right = encode(&account()?);
        for i in 0..128usize {
            for byte in 0..=255u8 {
                let mut row = right;
                row[i] = byte;
                if let Ok(other) = decode(&row) {
                    assert!(rt; encode(&other) == row);
                    assert!(rt; i < 119 || byte == 0);
                }
            }
        }
        Ok(())
    }

    // The number of the refusal of this row with one byte changed, or 0.
    fn damaged(right: &[u8; 128], at: usize, byte: u8) -> u8 {
        let mut row = *right;
        if let Some(place) = row.get_mut(at) {
            *place = byte;
        }
        decode(&row).map_or_else(u8::from, |_| 0)
    }

    #[test]
    fn rules_between_fields_are_looked_at(rt: HostRuntime) -> Result<(), Fail> {
        let right = encode(&account()?);
        assert_eq!(rt; damaged(&right, 0, 2), 0);
        assert_eq!(rt; damaged(&right, 0, 1), 17, "running with kWh waiting");
        assert_eq!(rt; damaged(&right, 0, 0), 17, "no state");
        assert_eq!(rt; damaged(&right, 1, 1), 17, "professional and protected");
        assert_eq!(rt; damaged(&right, 2, 13), 17, "a fourth mark");
        assert_eq!(rt; damaged(&right, 5, 2), 17, "exempt above power");
        assert_eq!(rt; damaged(&right, 7, 0), 17, "an index on an unused circuit");
        assert_eq!(rt; damaged(&right, 13, 5), 17, "a month too late");
        assert_eq!(rt; damaged(&right, 18, 64), 17, "an index too high");
        assert_eq!(rt; damaged(&right, 66, 161), 17, "too many kWh");
        assert_eq!(rt; damaged(&right, 111, 127), 17, "a balance out of range");
        assert_eq!(rt; damaged(&right, 127, 1), 17, "the last zero");
        Ok(())
    }
}
