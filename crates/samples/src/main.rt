// Plays a long random script, whose answers an independent calculation worked out: compare/make-samples writes both.
#![tactic(auto)]

use player::play_telling;
use pricelines::Pricing;
use std::io;

fn main(rt: HostRuntime) -> io::Result<()> {
    play_telling(&rt, &mut Pricing::new())
}
