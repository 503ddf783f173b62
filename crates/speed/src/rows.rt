// Rows read from a board and stored on it.
use crate::job::Job;
use crate::repeat::{Turn, repeat};
use board::Board;

// The next number of a sequence that jumps about.
fn jump(number: u64) -> u64 {
    number
        .wrapping_mul(6_364_136_223_846_793_005)
        .wrapping_add(1_442_695_040_888_963_407)
}

// A number below a count.
fn below(number: u64, count: u64) -> u64 {
    if count == 0 {
        0
    } else {
        (number >> 33) % count
    }
}

// A board on which every account has a row.
fn fill<B: Board>(board: &mut B, accounts: u64) {
    for number in 0..accounts {
        let mut row = [9u8; 128];
        row[0] = (number & 0xff) as u8;
        let _ = board.store(number, &row);
    }
}

// Reads rows here and there, and sums one byte or another of each.
pub fn load_rows<B: Board + Drop>(
    rt: &HostRuntime,
    mut board: B,
    job: &Job,
) -> anyhow::Result<u64> {
    let accounts = job.accounts;
    fill(&mut board, accounts);
    let mut place = [0u8; 128];
    let mut at = 1;
    repeat(rt, accounts, job.count, &mut board, |board: &mut B, _| {
        at = jump(at);
        if board.read(below(at, accounts), &mut place).is_err() {
            return 0;
        }
        place[(at & 127) as usize] as u64
    })
}

// Stores rows here and there, and counts them.
pub fn store_rows<B: Board + Drop>(
    rt: &HostRuntime,
    mut board: B,
    job: &Job,
) -> anyhow::Result<u64> {
    let accounts = job.accounts;
    fill(&mut board, accounts);
    let mut at = 1;
    repeat(
        rt,
        accounts,
        job.count,
        &mut board,
        |board: &mut B, turn: Turn| {
            at = jump(at);
            let mut row = [7u8; 128];
            row[0] = (turn.done & 0xff) as u8;
            u64::from(board.store(below(at, accounts), &row).is_ok())
        },
    )
}
