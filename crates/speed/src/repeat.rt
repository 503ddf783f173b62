// A step done over and over, and the time that it takes.
use std::time::Instant;

// Whose turn it is: the accounts go round, each round is counted, and so are the turns before this one.
#[derive(Clone, Copy)]
pub struct Turn {
    pub done: u64,
    pub number: u64,
    pub round: u64,
}

impl Turn {
    const FIRST: Turn = Turn {
        done: 0,
        number: 0,
        round: 0,
    };

    fn next(self, accounts: u64) -> Turn {
        let done = self.done.saturating_add(1);
        let number = self.number.saturating_add(1);
        if number < accounts {
            return Turn {
                done,
                number,
                ..self
            };
        }
        Turn {
            done,
            number: 0,
            round: self.round.saturating_add(1),
        }
    }
}

// Does a step on a place so many times, for each of the accounts in turn, tells the time and gives the sum of what the steps gave.
pub fn repeat<P, F: FnMut(&mut P, Turn) -> u64>(
    rt: &HostRuntime,
    accounts: u64,
    count: u64,
    place: &mut P,
    mut step: F,
) -> anyhow::Result<u64>
    requires { F.IsAlwaysCallable step }
{
    let start = Instant::now(rt)?;
    let mut sum = 0u64;
    let mut turn = Turn::FIRST;
    for _ in 0..count {
        sum = sum.wrapping_add(step(place, turn));
        turn = turn.next(accounts);
    }
    let taken = start.elapsed(rt)?.as_nanos();
    eprintln!(rt; "{taken}")?;
    Ok(sum)
}
