//! Results of commands and messages.

use site_store::Stamp;

/// The result of putting a policy.
#[derive(Clone, Copy)]
pub struct Put {
    /// The stamp of the put.
    pub stamp: Stamp,
    /// Whether the policy's type is False in each environment of the schema, so that no conforming request satisfies
    /// it.
    pub impossible: bool,
}

/// The result of applying the updates of a message.
#[derive(Clone, Copy)]
pub enum Taken {
    /// All updates were applied; this is their number.
    All(usize),
    /// An allocation failed; exactly the first updates were applied, and this is their number.
    Short(usize),
}
