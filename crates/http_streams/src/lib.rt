//! HTTP/1.1 over bytes: writes requests and replies, finds where they end in a stream, answers the requests of a
//! stream, and fetches a reply.
//!
//! A stream's requests are answered in order, each complete one before more bytes are read. Nothing here opens a
//! socket: readers, writers and services are any values of the traits `Source`, `Sink` and `Service`.
#![tactic(auto)]

mod buffers;
mod cut;
pub mod devices;
pub mod fetch;
mod fields;
pub mod framed;
pub mod framing_laws;
pub mod laws;
mod limits;
pub mod memory;
mod nowhere;
pub mod parts;
mod reply;
mod reply_cut;
mod request;
pub mod serve;
pub mod service;

pub use buffers::room_for_heads;
pub use devices::{Counted, Sink, Source};
pub use memory::{Fed, Kept, Plan};
pub use parts::{Ask, is_host, is_method, is_target};

// of this layer
pub use connections::service::CommitFailed;

/// The most bytes of a head, with its empty line.
pub const MAX_HEAD: usize = 16_384;

/// The most fields of a head.
pub const MAX_FIELDS: usize = 64;

/// The most bytes of a request's body.
pub const MAX_BODY: usize = 8_388_608;

/// The most bytes of the body of a reply that is fetched.
pub const MAX_REPLY: usize = 67_108_864;

/// The most bytes of one read.
pub const MAX_READ: usize = 16_384;

/// The number of bytes that a service may append to a reply without allocating.
pub const REPLY_ROOM: usize = 256;
