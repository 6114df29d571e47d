//! The event loop of many connections over one service and one log, in one thread, over any sockets: it waits, accepts,
//! reads, answers, writes and closes, and what it calls is proved to be what the table of connections is told.
//!
//! Nothing here opens a socket: a program implements [`sockets::Sockets`], and calls [`serving::serve_all`].
#![tactic(auto)]

pub mod accepting;
pub mod closing;
pub mod course;
pub mod limits;
pub mod reading;
pub mod serving;
pub mod sockets;
pub mod turn;
pub mod waiting;
pub mod writing;

/// The longest pause after a failure to accept a connection, in milliseconds.
pub const LONGEST_PAUSE: u64 = 1_000;

/// A time, and a number of connections or of turns, that no run reaches.
pub const MOST: u64 = 18_446_744_073_709_551_615;
