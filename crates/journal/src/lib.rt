//! A journal of the changes of a replicated store, kept in a file.
//!
//! The requests of a round are answered in memory. Their updates are one record, which is appended to the file and
//! synced before the first of their replies is sent. So each file that a crash may leave has every update whose reply
//! was sent.
#![tactic(auto)]

mod compaction;
mod device;
mod fault;
pub mod laws;
mod recovery;
mod replica;
mod rounds;

pub use compaction::compact;
pub use device::{Device, DeviceFailed, Machine};
pub use fault::{CommitFault, RecoveryFault};
pub use recovery::{first_line, open, recover};
pub use replica::{Answering, RecordFault, Replica};
pub use rounds::{Exchange, answer_all, commit, serve_round};
