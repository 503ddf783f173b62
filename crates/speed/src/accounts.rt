// Calls on a cabinet.
use crate::job::Job;
use crate::repeat::{Turn, repeat};
use account::OpeningForm;
use board::Board;
use cabinet::Cabinet;
use decree::Decree;
use facts::ProfileForm;

// A dwelling with circuits of every kind, all its registers at 0.
const OPENING: OpeningForm = OpeningForm {
    profile: ProfileForm {
        class: 0,
        marks: 3,
        power: 100,
        exempt: 0,
        kinds: [1, 2, 3, 2, 3, 1],
    },
    first: 0,
    indices: [0; 12],
};

// The indices of the twelve registers at an account's reading of a number.
fn indices(reading: u64) -> [u64; 12] {
    let index = reading % 1_000_000;
    [
        index, index, 0, index, index, index, 0, index, 0, 0, index, 0,
    ]
}

// A month posted, whose indices go with a number.
fn post_month<B: Board>(cabinet: &mut Cabinet<B>, number: u64) -> u64 {
    cabinet
        .post(888_131 + number % 1_000, 141_151, 10_000)
        .map_or(0, |posted| posted.1)
}

// The N_E of a month posted.
pub fn post<B: Board>(cabinet: &mut Cabinet<B>, turn: Turn) -> u64 {
    post_month(cabinet, turn.done)
}

// A reading, which counts as one.
pub fn read<B: Board>(cabinet: &mut Cabinet<B>, turn: Turn) -> u64 {
    u64::from(cabinet.read(turn.number, &indices(turn.round)).is_ok())
}

// The cents of a settlement of a month, with the reading before it.
pub fn settle<B: Board>(cabinet: &mut Cabinet<B>, turn: Turn) -> u64 {
    let reading = turn.round.wrapping_mul(100);
    if cabinet.read(turn.number, &indices(reading)).is_err() {
        return 0;
    }
    cabinet
        .settle(turn.number, turn.round, &Decree)
        .map_or(0, |bill| bill.cents())
}

// A cent paid, which counts as one.
pub fn pay<B: Board>(cabinet: &mut Cabinet<B>, turn: Turn) -> u64 {
    u64::from(cabinet.pay(turn.number, 1).is_ok())
}

// A step done over and over on a cabinet whose accounts are all open.
pub fn at_cabinet<B: Board + Drop, F: FnMut(&mut Cabinet<B>, Turn) -> u64>(
    rt: &HostRuntime,
    board: B,
    job: &Job,
    step: F,
) -> anyhow::Result<u64>
    requires { F.IsAlwaysCallable step }
{
    let mut cabinet = Cabinet::new(rt.alloc(), board)?;
    for month in 0..job.months {
        let _ = post_month(&mut cabinet, month);
    }
    for number in 0..job.accounts {
        let _ = cabinet.open(number, &OPENING);
    }
    repeat(rt, job.accounts, job.count, &mut cabinet, step)
}
