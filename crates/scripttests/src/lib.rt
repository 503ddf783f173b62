// Tests of a script's lines: each form is read, and its near misses are unreadable.
#![tactic(auto)]

ghost use Rattle.std.specs.Prelude.{◌≤◌};

#[cfg(test)]
mod tests {
    use run::Call;
    use scriptlines::{BoardForm, Line, SheetName, read_line};
    use std::test::Fail;
    use words::all_numbers;

    // What a line is, without what it holds.
    #[derive(Clone, Copy, PartialEq, Eq, Debug)]
    enum Form {
        Silent,
        Unreadable,
        Rating,
        House,
        Price,
        Choose,
        Board,
        Call,
        Row,
        Store,
        Clear,
    }

    fn form_of(line: &[u8]) -> Form {
        match read_line(line) {
            Line::Silent => Form::Silent,
            Line::Unreadable => Form::Unreadable,
            Line::Rating { .. } => Form::Rating,
            Line::House(_) => Form::House,
            Line::Price { .. } => Form::Price,
            Line::Choose { .. } => Form::Choose,
            Line::Board(_) => Form::Board,
            Line::Call(_) => Form::Call,
            Line::Row(_) => Form::Row,
            Line::Store { .. } => Form::Store,
            Line::Clear(_) => Form::Clear,
        }
    }

    // The figures of a board: capacity, limit and length; a table's limit is given as 0.
    fn board(line: &[u8]) -> Result<(u64, u64, u64), Fail> {
        match read_line(line) {
            Line::Board(BoardForm::Table { capacity, length }) => Ok((capacity, 0, length)),
            Line::Board(
                BoardForm::Journal {
                    capacity,
                    limit,
                    length,
                },
            ) => Ok((capacity, limit, length)),
            _ => Err(Fail::new("no board")),
        }
    }

    // A table without a length takes 129 bytes for each number, as far as 64 bits go.
    #[test]
    fn boards(rt: HostRuntime) -> Result<(), Fail> {
        assert_eq!(rt; board(b"board table 64")?, (64, 0, 8_256));
        assert_eq!(rt; board(b"board table 64 9000")?, (64, 0, 9_000));
        assert_eq!(rt; board(b"board table 0 0")?, (0, 0, 0));
        assert_eq!(rt;
            board(b"board table 142998016075267841")?.2,
            18_446_744_073_709_551_489
        );
        assert_eq!(rt; board(b"board table 142998016075267842")?.2, u64::MAX);
        assert_eq!(rt; board(b"board table 18446744073709551615")?.2, u64::MAX);
        assert_eq!(rt; board(b"board journal 64 10 2620")?, (64, 10, 2_620));
        Ok(())
    }

    // The numbers of an opening, in the order of the line.
    #[test]
    fn openings(rt: HostRuntime) -> Result<(), Fail> {
        let line =
            b"open 7 101 102 103 104 105 106 107 108 109 110 111 112 113 114 115 116 117 118 119 120 121 122 18446744073709551615";
        let Line::Call(Call::Open { number, form }) = read_line(line) else {
            return Err(Fail::new("no opening"));
        };
        assert_eq!(rt; number, 7);
        assert_eq!(rt; form.profile.class, 101);
        assert_eq!(rt; form.profile.marks, 102);
        assert_eq!(rt; form.profile.power, 103);
        assert_eq!(rt; form.profile.exempt, 104);
        assert_eq!(rt; form.profile.kinds, [105, 106, 107, 108, 109, 110]);
        assert_eq!(rt; form.first, 111);
        assert_eq!(rt;
            form.indices,
            [
                112,
                113,
                114,
                115,
                116,
                117,
                118,
                119,
                120,
                121,
                122,
                u64::MAX,
            ]
        );
        Ok(())
    }

    #[test]
    fn readings(rt: HostRuntime) -> Result<(), Fail> {
        let line = b"  read\t4096 10 20 11 21 12 22 13 23 14 24 15 25 ";
        let Line::Call(Call::Read { number, indices }) = read_line(line) else {
            return Err(Fail::new("no reading"));
        };
        assert_eq!(rt; number, 4_096);
        assert_eq!(rt; indices, [10, 20, 11, 21, 12, 22, 13, 23, 14, 24, 15, 25]);
        Ok(())
    }

    // The numbers of a call that has three at most, and a settlement's sheet.
    fn call(line: &[u8]) -> Result<(&'static str, u64, u64, u64), Fail> {
        let Line::Call(call) = read_line(line) else {
            return Err(Fail::new("no call"));
        };
        match call {
            Call::Post { s, mx, nc } => Ok(("post", s, mx, nc)),
            Call::Settle { number, end, sheet } => Ok((sheet_name(sheet), number, end, 0)),
            Call::Pay { number, cents } => Ok(("pay", number, cents, 0)),
            Call::Close { number } => Ok(("close", number, 0, 0)),
            Call::Show { number } => Ok(("show", number, 0, 0)),
            Call::Open { .. } | Call::Read { .. } => Err(Fail::new("another call")),
        }
    }

    fn sheet_name(sheet: SheetName) -> &'static str {
        match sheet {
            SheetName::Decree => "decree",
            SheetName::House => "house",
            SheetName::ProtectedDecree => "protected-decree",
            SheetName::ProtectedHouse => "protected-house",
        }
    }

    #[test]
    fn calls(rt: HostRuntime) -> Result<(), Fail> {
        assert_eq!(rt;
            call(b"post 888131 141151 10000")?,
            ("post", 888_131, 141_151, 10_000)
        );
        assert_eq!(rt; call(b"settle 3 11 decree")?, ("decree", 3, 11, 0));
        assert_eq!(rt; call(b"settle 3 11 house")?, ("house", 3, 11, 0));
        assert_eq!(rt;
            call(b"settle 3 11 protected-decree")?,
            ("protected-decree", 3, 11, 0)
        );
        assert_eq!(rt;
            call(b"settle 3 11 protected-house")?,
            ("protected-house", 3, 11, 0)
        );
        assert_eq!(rt; call(b"pay 3 12345")?, ("pay", 3, 12_345, 0));
        assert_eq!(rt; call(b"close 00000000000000000003")?, ("close", 3, 0, 0));
        assert_eq!(rt;
            call(b"show 18446744073709551615")?,
            ("show", u64::MAX, 0, 0)
        );
        Ok(())
    }

    // A line `store 3` with so many digits behind it, filled up with blanks.
    fn stored(digits: usize, digit: u8) -> [u8; 300]
        requires { digits ≤ 292 }
    {
        let mut line = [b' '; 300];
        line[..8].copy_from_slice(b"store 3 ");
        line[8..8 + digits].fill(digit);
        line
    }

    #[test]
    fn earlier_users_of_a_board(rt: HostRuntime) -> Result<(), Fail> {
        let line = stored(256, b'F');
        let Line::Store { number, text } = read_line(&line) else {
            return Err(Fail::new("no row"));
        };
        assert_eq!(rt; number, 3);
        assert_eq!(rt; text.len(), 256);
        assert_eq!(rt; form_of(&stored(256, b'0')), Form::Store);
        assert_eq!(rt; form_of(&stored(256, b'a')), Form::Store);
        assert_eq!(rt; form_of(&stored(256, b'g')), Form::Unreadable);
        assert_eq!(rt; form_of(&stored(254, b'0')), Form::Unreadable);
        assert_eq!(rt; form_of(&stored(255, b'0')), Form::Unreadable);
        assert_eq!(rt; form_of(&stored(258, b'0')), Form::Unreadable);
        assert_eq!(rt; form_of(&stored(0, b'0')), Form::Unreadable);
        assert_eq!(rt; form_of(b"row 5"), Form::Row);
        assert_eq!(rt; form_of(b"clear 5"), Form::Clear);
        Ok(())
    }

    // A line's numbers are copied, and each copy goes on by itself.
    #[test]
    fn numbers_are_copied(rt: HostRuntime) -> Result<(), Fail> {
        let Some(mut numbers) = all_numbers(b"7 11") else {
            return Err(Fail::new("no numbers"));
        };
        let mut copy = numbers;
        assert!(rt; numbers.push(13).is_ok());
        assert!(rt; copy.push(17).is_ok());
        assert_eq!(rt; numbers.as_slice(), [7, 11, 13].as_slice());
        assert_eq!(rt; copy.as_slice(), [7, 11, 17].as_slice());
        Ok(())
    }

    // The other lines, as far as their form goes.
    #[test]
    fn pricing_lines(rt: HostRuntime) {
        assert_eq!(rt; form_of(b""), Form::Silent);
        assert_eq!(rt; form_of(b" \t"), Form::Silent);
        assert_eq!(rt; form_of(b" # close 3"), Form::Silent);
        assert_eq!(rt; form_of(b"rating 1 40"), Form::Rating);
        assert_eq!(rt; form_of(b"house 7f0000"), Form::House);
        assert_eq!(rt; form_of(b"house -"), Form::House);
        assert_eq!(rt;
            form_of(b"choose house 0 0 9 0 1 0 0 0 0 0 1 2 0 0 0 0 0 0 0 0 0 0 1 5 6"),
            Form::Choose
        );
        assert_eq!(rt;
            form_of(b"price decree 8 0 0 9 0 1 0 0 0 0 0 1 2 0 0 0 0 0 0 0 0 0 0 1 5 6"),
            Form::Price
        );
    }

    // Lines that miss a form by a word.
    const MISSES: [&str; 34] = [
        "board",
        "board table",
        "board table 1 2 3",
        "board table 1 x",
        "board Table 1",
        "board 64",
        "board journal 64 10",
        "board journal 64 10 2620 1",
        "post 1 2",
        "post 1 2 3 4",
        "post 1 -2 3",
        "POST 1 2 3",
        "posted 1 2 3",
        "open 7 1 2 3 4 5 6 7 8 9 10 11 12 13 14 15 16 17 18 19 20 21 22",
        "open 7 1 2 3 4 5 6 7 8 9 10 11 12 13 14 15 16 17 18 19 20 21 22 23 24",
        "read 7 1 2 3 4 5 6 7 8 9 10 11",
        "read 7 1 2 3 4 5 6 7 8 9 10 11 12 13",
        "settle 3 11",
        "settle 3 11 Decree",
        "settle 3 decree 11",
        "settle 3 11 decree 4",
        "pay 3",
        "pay 3 4 5",
        "pay 3 +4",
        "close",
        "close 3 4",
        "show 18446744073709551616",
        "show 000000000000000000003",
        "show 3 # dwelling",
        "row",
        "row 3 4",
        "clear 3\r",
        "store 3 -",
        "price decree 0 0 9 0 1 0 0 0 0 0 1 2 0 0 0 0 0 0 0 0 0 0 1 5 6",
    ];

    #[test]
    fn near_misses(rt: HostRuntime) {
        for line in MISSES {
            assert_eq!(rt; form_of(line.as_bytes()), Form::Unreadable, "{}", line);
        }
    }
}
