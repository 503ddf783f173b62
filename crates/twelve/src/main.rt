// Prints the twelve known cases of the rules: a case's number and its last figure, a line each.
#![tactic(auto)]

use cases::twelve_lines;
use std::io;

fn main(rt: HostRuntime) -> io::Result<()> {
    let lines = twelve_lines(rt.alloc())?;
    print!(rt; "{lines}")
}
