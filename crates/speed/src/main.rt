// Measures one kind of work. `speed WORK BOARD ACCOUNTS ENTRIES MONTHS COUNT` makes a board and, where the work needs one, a cabinet on it, then does the work COUNT times. Standard output gets the work and its check sum, standard error the nanoseconds that it took.
#![tactic(auto)]

mod accounts;
mod choosing;
mod job;
mod repeat;
mod rows;

use accounts::{at_cabinet, pay, post, read, settle};
use anyhow::anyhow;
use board::Board;
use choosing::choose_for;
use job::{BoardKind, Job, Work};
use journal::JournalPlan;
use repeat::{Turn, repeat};
use rows::{load_rows, store_rows};
use std::env;
use table::TablePlan;

const USAGE: &str =
    "usage: speed choose|load|store|post|read|settle|pay table|journal ACCOUNTS ENTRIES MONTHS COUNT";

// The work on a board of any kind.
fn at_work<B: Board + Drop>(rt: &HostRuntime, board: B, job: &Job) -> anyhow::Result<u64> {
    match job.work {
        Work::Choose => repeat(rt, job.accounts, job.count, &mut (), |_, turn: Turn| {
            choose_for(turn.done)
        }),
        Work::Load => load_rows(rt, board, job),
        Work::Store => store_rows(rt, board, job),
        Work::Post => at_cabinet(rt, board, job, post),
        Work::Read => at_cabinet(rt, board, job, read),
        Work::Settle => at_cabinet(rt, board, job, settle),
        Work::Pay => at_cabinet(rt, board, job, pay),
    }
}

// The work on the board that a job names.
fn work(rt: &HostRuntime, job: &Job) -> anyhow::Result<u64> {
    let heap = rt.alloc();
    match job.board {
        BoardKind::Table => {
            let memory = vec![in heap; 0u8; job.table_length()]?;
            let plan = TablePlan::new(job.accounts, memory).map_err(|_| anyhow!(
                "no such table board"
            ))?;
            at_work(rt, plan.make(), job)
        }
        BoardKind::Journal => {
            let memory = vec![in heap; 0u8; job.journal_length()]?;
            let plan = JournalPlan::new(job.accounts, job.accounts, memory).map_err(|_| anyhow!(
                "no such journal board"
            ))?;
            at_work(rt, plan.make(), job)
        }
    }
}

fn main(rt: HostRuntime) -> anyhow::Result<()> {
    let mut words = Vec::new(rt.alloc());
    for word in env::args(&rt)? {
        words.push(word)?;
    }
    match Job::of_words(words.as_slice()) {
        Some(job) => {
            let sum = work(&rt, &job)?;
            println!(rt; "{sum}")?;
        }
        None => eprintln!(rt; "{USAGE}")?,
    }
    Ok(())
}
