//! Messages between sites, written and read.
//!
//! A summary has the names of a store with the stamps of their entries. A state is a whole store. A delta holds the
//! entries whose names a summary lacks or has with a smaller stamp.
//!
//! This crate is generic in the texts of a message: a type that implements [`Bodies`] parses them, and specifies their
//! values and errors.
#![tactic(auto)]

mod bodies;
mod fault;
mod laws;
mod members;
mod reading;
mod stated;
mod summary;
mod summary_laws;
mod summary_reading;
mod summary_writing;
mod update;
mod update_writing;
mod version;
mod writing;

pub use bodies::{Bodies, BodyFault};
pub use fault::MessageFault;
pub use laws::{
    messages_are_raised, messages_have_one_outcome, messages_read_back, valid_messages_are_read,
};
pub use members::{Lent, write_number, write_text};
pub use reading::read_message_by;
pub use summary::Summary;
pub use summary_laws::{stamps_read_back, summaries_read_back};
pub use summary_reading::{check_stamp, read_stamped, read_summary, read_version};
pub use summary_writing::write_summary;
pub use update::Update;
pub use update_writing::write_updates;
pub use version::MessageVersion;
pub use writing::{write_delta, write_state};

// of lower layers
pub use entity_uids::{Policy, ReadFault, names_read_back, parse_policy, texts_have_one_reading};
