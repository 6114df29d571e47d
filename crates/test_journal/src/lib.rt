//! Tests of `journal`: a device in memory that fails at each call and at each byte of an append, and a small replica.
//! They meet the traits of `journal`. What each cut of the file leaves is compared with a model.
#![tactic(auto)]

mod copies;
mod disk;
mod notes;

pub use disk::Disk;
pub use notes::Notes;

#[cfg(test)]
mod crashes;
