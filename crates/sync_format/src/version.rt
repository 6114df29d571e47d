//! Versions of messages.

/// The version of a message, which determines the form of its sites. Only version 2 is written.
#[derive(Clone, Copy)]
pub enum MessageVersion {
    /// Version 1: sites are numbers from 1 to 65,535.
    One,
    /// Version 2: sites are their names.
    Two,
}
