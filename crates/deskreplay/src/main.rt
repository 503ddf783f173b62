// Reads a script on standard input and writes an answer to each of its lines.
#![tactic(auto)]

use desk::Desk;
use player::play_telling;
use std::io;

fn main(rt: HostRuntime) -> io::Result<()> {
    play_telling(&rt, &mut Desk::new())
}
