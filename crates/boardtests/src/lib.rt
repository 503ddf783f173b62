// One script of stores, readings and clearings, run on both boards at the edges of their figures.
#![tactic(auto)]

#[cfg(test)]
mod tests {
    use board::{Board, BoardFault};
    use boardlaw::{Change, apply};
    use journal::{Journal, JournalPlan};
    use refusal::{Layer, Refusal};
    use std::alloc::Global;
    use std::process::Abort;
    use std::test::Fail;
    use table::{Table, TablePlan};

    const LAST: u64 = u64::MAX;

    // A row that differs from that of any other number, and of any other turn near it.
    fn row(number: u64, turn: u64) -> [u8; 128] {
        let mut row = [(turn % 251) as u8; 128];
        row[0] = (number / 256 % 256) as u8;
        row[127] = (number % 256) as u8;
        row
    }

    // The refusal of this number, layer and place.
    fn is_refused(rt: &impl Abort, fault: BoardFault, number: u8, place: u64) -> Result<(), Fail> {
        let refusal = Refusal::from(fault);
        assert_eq!(rt; refusal.number, number);
        assert!(rt; refusal.layer == Layer::Board);
        assert_eq!(rt; refusal.place, place);
        Ok(())
    }

    fn refuses<T: Drop>(
        rt: &impl Abort,
        answer: Result<T, BoardFault>,
        number: u8,
        place: u64,
    ) -> Result<(), Fail> {
        match answer {
            Ok(_) => Err(Fail::new("accepted")),
            Err(fault) => is_refused(rt, fault, number, place),
        }
    }

    // Reading says yes and gives this row.
    fn shows<B: Board>(
        rt: &impl Abort,
        board: &mut B,
        number: u64,
        expected: &[u8; 128],
    ) -> Result<(), Fail> {
        let mut place = [255; 128];
        assert!(rt; board.read(number, &mut place)?);
        assert!(rt; place == *expected);
        Ok(())
    }

    // Reading says no and leaves the place.
    fn is_vacant<B: Board>(rt: &impl Abort, board: &mut B, number: u64) -> Result<(), Fail> {
        let mut place = [255; 128];
        assert!(rt; !board.read(number, &mut place)?);
        assert!(rt; place == [255; 128]);
        Ok(())
    }

    fn refuses_outside<B: Board>(rt: &impl Abort, board: &mut B, number: u64) -> Result<(), Fail> {
        let mut place = [255; 128];
        refuses(rt, board.read(number, &mut place), 3, number)?;
        assert!(rt; place == [255; 128]);
        refuses(rt, board.store(number, &[1; 128]), 3, number)?;
        refuses(rt, board.clear(number), 3, number)
    }

    // Stores every number in turn: the first rows stand, the others find the board full, and a standing row may be rewritten.
    fn fills<B: Board>(rt: &impl Abort, board: &mut B) -> Result<(), Fail> {
        let limit = board.limit();
        for number in 0..board.capacity() {
            is_vacant(rt, board, number)?;
            if number < limit {
                board.store(number, &row(number, 0))?;
            } else {
                refuses(rt, board.store(number, &row(number, 0)), 6, number)?;
                is_vacant(rt, board, number)?;
            }
        }
        for number in 0..limit {
            shows(rt, board, number, &row(number, 0))?;
            board.store(number, &row(number, 1))?;
            shows(rt, board, number, &row(number, 1))?;
        }
        Ok(())
    }

    // Clears every number, twice.
    fn empties<B: Board>(rt: &impl Abort, board: &mut B) -> Result<(), Fail> {
        for number in 0..board.capacity() {
            board.clear(number)?;
            is_vacant(rt, board, number)?;
            board.clear(number)?;
        }
        Ok(())
    }

    // Rewrites the first number a thousand times, and clears it as often; the other rows stay.
    fn rewrites<B: Board>(rt: &impl Abort, board: &mut B) -> Result<(), Fail> {
        for turn in 0..1000 {
            board.store(0, &row(0, turn))?;
        }
        shows(rt, board, 0, &row(0, 999))?;
        for turn in 0..1000 {
            board.clear(0)?;
            board.store(0, &row(0, turn))?;
        }
        shows(rt, board, 0, &row(0, 999))?;
        for number in 1..board.limit() {
            shows(rt, board, number, &row(number, 1))?;
        }
        Ok(())
    }

    // All of it, on a new board.
    fn keeps_rows<B: Board>(rt: &impl Abort, board: &mut B) -> Result<(), Fail> {
        fills(rt, board)?;
        rewrites(rt, board)?;
        refuses_outside(rt, board, board.capacity())?;
        refuses_outside(rt, board, LAST)?;
        empties(rt, board)?;
        fills(rt, board)?;
        empties(rt, board)
    }

    // A table over a memory of old bytes, each of which looks like the mark of a row.
    fn table(heap: Global, capacity: u64, len: u64) -> Result<Table, Fail> {
        TablePlan::new(capacity, vec![in heap; 1u8; len as usize]?)
            .map(|plan| plan.make())
            .map_err(|_| Fail::new("unfit"))
    }

    // A journal over a memory of old bytes, each of which looks like the mark of a row.
    fn journal(heap: Global, capacity: u64, limit: u64, len: u64) -> Result<Journal, Fail> {
        JournalPlan::new(capacity, limit, vec![in heap; 1u8; len as usize]?)
            .map(|plan| plan.make())
            .map_err(|_| Fail::new("unfit"))
    }

    #[test]
    fn table_of_one(rt: HostRuntime) -> Result<(), Fail> {
        let mut board = table(rt.alloc(), 1, 129)?;
        assert_eq!(rt; board.limit(), 1);
        keeps_rows(&rt, &mut board)
    }

    #[test]
    fn table_of_most(rt: HostRuntime) -> Result<(), Fail> {
        let mut board = table(rt.alloc(), 4096, 129 * 4096 + 77)?;
        assert_eq!(rt; board.capacity(), 4096);
        keeps_rows(&rt, &mut board)
    }

    #[test]
    fn journal_of_one(rt: HostRuntime) -> Result<(), Fail> {
        let mut board = journal(rt.alloc(), 1, 1, 2 * 131)?;
        keeps_rows(&rt, &mut board)
    }

    #[test]
    fn journal_of_limit_one(rt: HostRuntime) -> Result<(), Fail> {
        let mut board = journal(rt.alloc(), 20, 1, 2 * 131 + 130)?;
        assert_eq!(rt; board.limit(), 1);
        keeps_rows(&rt, &mut board)
    }

    #[test]
    fn journal_with_one_entry_to_spare(rt: HostRuntime) -> Result<(), Fail> {
        let mut board = journal(rt.alloc(), 20, 10, 11 * 131)?;
        keeps_rows(&rt, &mut board)
    }

    #[test]
    fn journal_with_many_entries(rt: HostRuntime) -> Result<(), Fail> {
        let mut board = journal(rt.alloc(), 300, 300, 600 * 131)?;
        keeps_rows(&rt, &mut board)
    }

    #[test]
    fn answers_come_in_order(rt: HostRuntime) -> Result<(), Fail> {
        let mut board = journal(rt.alloc(), 2, 1, 2 * 131)?;
        let changes = [
            Change::Store(0, row(0, 1)),
            Change::Store(1, row(1, 2)),
            Change::Clear(0),
            Change::Store(1, row(1, 3)),
            Change::Clear(2),
        ];
        let mut answers = [Ok(()); 5];
        assert!(rt; apply(&mut board, &changes, &mut answers).is_ok());
        refuses(&rt, answers[1], 6, 1)?;
        refuses(&rt, answers[4], 3, 2)?;
        assert!(rt; answers[0].is_ok() && answers[2].is_ok() && answers[3].is_ok());
        shows(&rt, &mut board, 1, &row(1, 3))?;
        let mut short = [Ok(()); 4];
        assert!(rt; apply(&mut board, &changes, &mut short).is_err());
        shows(&rt, &mut board, 1, &row(1, 3))
    }

    #[test]
    fn figures_of_a_table(rt: HostRuntime) -> Result<(), Fail> {
        for (capacity, len) in [(1, 129), (4096, LAST)] {
            TablePlan::check(capacity, len)?;
        }
        for (capacity, len) in [(0, 129), (2, 257), (4097, LAST), (LAST, 129)] {
            refuses(&rt, TablePlan::check(capacity, len), 22, len)?;
        }
        Ok(())
    }

    #[test]
    fn figures_of_a_journal(rt: HostRuntime) -> Result<(), Fail> {
        for (capacity, limit, len) in [(1, 1, 262), (4096, 4096, 65535 * 131 + 130)] {
            JournalPlan::check(capacity, limit, len)?;
        }
        for (capacity, limit, len) in [
            (0, 0, 262),
            (1, 1, 261),
            (1, 2, 1310),
            (4096, 0, 262),
            (4097, 1, 262),
            (1, 1, 65536 * 131),
            (LAST, LAST, LAST),
        ] {
            refuses(&rt, JournalPlan::check(capacity, limit, len), 22, len)?;
        }
        Ok(())
    }

    #[test]
    fn a_refused_memory_comes_back(rt: HostRuntime) -> Result<(), Fail> {
        let memory = vec![in rt.alloc(); 7u8; 128]?;
        match TablePlan::new(1, memory) {
            Ok(_) => Err(Fail::new("too short")),
            Err((fault, memory)) => {
                is_refused(&rt, fault, 22, 128)?;
                assert!(rt; memory.len() == 128);
                assert_eq!(rt; memory[127], 7);
                Ok(())
            }
        }
    }
}
