// Runs an estate for ten years and more on a table board and on a journal board side by side, and shows what came of it.
#![tactic(auto)]

mod arguments;
mod life;
mod printing;
mod report;

fn run(rt: &HostRuntime) -> anyhow::Result<()> {
    life::run(rt, arguments::read(rt)?)
}

fn main(rt: HostRuntime) -> anyhow::Result<()> {
    run(&rt)
}
