//! Tests of `connections`: a small service over bytes and a log in memory, either of which fails as planned. They meet
//! the traits of `connections`. What a table holds after a script of events is compared with what was written by hand.
//! So are the replies that a framed service of `http_streams` gives to a request at the front of some bytes.
#![tactic(auto)]

mod counter;
mod hungry;
mod lines;
mod scripts;

pub use counter::Counter;
pub use hungry::Hungry;
pub use lines::Lines;
pub use scripts::{event_of, play, ready_table};

#[cfg(test)]
mod requests;
#[cfg(test)]
mod tables;
