//! Merges and exchanges without a site.
//!
//! - A merge takes the bytes of a schema and of two messages, and gives the state of the join of their updates, or the
//!   first error.
//! - A pull asks another site over HTTP for the entries that a state lacks, and joins them into the state.
//! - An exchange between two sites is made of calls: a call is one request and its reply.
//!
//! Nothing here opens a socket or a file: the reader and the writer are of any types that implement `Source` and
//! `Sink`, and the state is bytes.
#![tactic(auto)]

mod asking;
mod counts;
mod fault;
mod joining;
mod laws;
mod merging;
mod pulling;

pub use asking::{ExchangeCall, ask};
pub use counts::is_taken_line;
pub use fault::{NetworkFault, PullFault};
pub use joining::{Joined, join_message, message_refusal, state_of};
pub use laws::{merges_have_one_outcome, order_and_repeats_do_not_matter};
pub use merging::merge_texts;
pub use pulling::{Pulled, pull_over};

// of lower layers
pub use http_streams::fetch::FetchFault;
pub use http_streams::{Counted, Kept, Plan, Sink, Source};
