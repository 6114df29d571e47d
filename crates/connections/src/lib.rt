//! Many connections over one service and one log, in one thread: a table of slots, rounds of answers, and their
//! theorems.
//!
//! Nothing here opens a socket or reads a clock: the caller reports which bytes came, how many were taken, and when, in
//! milliseconds since some moment.
#![tactic(auto)]

pub mod event;
pub mod laws;
pub mod limits;
pub mod logging;
pub mod service;
pub mod slot;
pub mod table;
pub mod times;

/// The most bytes of a request.
pub const MAX_REQUEST: usize = 8_404_992;

/// The most bytes of one read.
pub const MAX_READ: usize = 16_384;

/// The most bytes of a connection that wait for an answer: those of the longest request and of one read.
pub const MAX_INPUT: usize = 8_421_376;

/// The least capacity of the memory for a reply that a service is given.
pub const REPLY_ROOM: usize = 512;

/// The least capacity of the memory for a line that a service is given.
pub const LINE_ROOM: usize = 64;

/// The milliseconds that a request has from its first byte on, a head or a short request; and that a reply has from its
/// offer on.
pub const REQUEST_MILLIS: u64 = 10_000;

/// The least rate of a longer request, and of a reply: so many bytes beyond the first `MAX_READ`, or that were taken,
/// give it a millisecond more.
pub const BYTES_PER_MILLI: usize = 4;

/// The least rate of a reply while the table is crowded: so many bytes that were taken give it a millisecond more.
pub const CROWDED_PER_MILLI: usize = 1_024;

/// The milliseconds after which an idle connection may make room for another, and a slow reader is closed if the table
/// is crowded.
pub const ROOM_MILLIS: u64 = 1_000;

/// The most milliseconds of a wait.
pub const MAX_WAIT: u64 = 18_446_744_073_709_551_615;

/// The most bytes that a connection holds while it is no long one: those of a request of 64 KiB and of one read.
pub const MAX_SHORT: usize = 81_920;

/// The most connections that hold more bytes than [`MAX_SHORT`].
pub const MAX_LONG: usize = 4;

/// The most bytes of unsent replies and lines, of all connections, with which one more reply is made.
pub const MAX_UNSENT: usize = 67_108_864;
