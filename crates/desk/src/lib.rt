// The desk at which a script is played: every line is answered, and what stands moves as the line says.
#![tactic(auto)]

mod answering;
mod desk;

pub use desk::Desk;
