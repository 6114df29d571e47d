//! The replies of a site.

use crate::fault::SiteFault;
use crate::outcome::{Put, Taken};
use plain::{Items, Text};
use site_store::{Answer, Stamp};

/// The text of a policy in the store, with its stamp.
#[derive(Drop)]
pub struct Found {
    /// The policy's text.
    pub text: Text,
    /// The stamp of the put that stored the text.
    pub stamp: Stamp,
}

/// The reply of a site to an input.
#[derive(Drop)]
pub enum Reply {
    /// The reply to a put of a policy.
    Put(Result<Put, SiteFault>),
    /// The reply to a put of an entity or to a deletion: the stamp of this command.
    Stamped(Result<Stamp, SiteFault>),
    /// The reply to a state or a delta: how many of its updates were applied.
    Taken(Result<Taken, SiteFault>),
    /// The reply to a request.
    Answered(Result<Answer, SiteFault>),
    /// The reply to a query for a policy; `None` if the id has no text.
    Found(Result<Option<Found>, SiteFault>),
    /// The reply to a query for the state, the summary or a delta: the bytes of a message.
    Written(Result<Items<u8>, SiteFault>),
}
