//! Tests of `connection_loop`: sockets in memory, which play a script and note each call that did something. What they
//! note is compared with what was written by hand.
#![tactic(auto)]

mod played;

pub use played::Played;

#[cfg(test)]
mod scripts;
