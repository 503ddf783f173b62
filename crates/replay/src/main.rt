// Reads a script on standard input and writes an answer to each of its lines.
#![tactic(auto)]

use player::play_telling;
use pricelines::Pricing;
use std::io;

fn main(rt: HostRuntime) -> io::Result<()> {
    play_telling(&rt, &mut Pricing::new())
}
