//! The events of a system of sites, and their replies.

use crate::fault::SiteFault;
use crate::reply::Reply;
use plain::Items;

/// An operation at a site, not checked yet. Each part is bytes, as they came in.
#[derive(Drop)]
pub enum Operation {
    /// Puts a policy: its id, and its text.
    PutPolicy(Items<u8>, Items<u8>),
    /// Deletes the policy with this id.
    DeletePolicy(Items<u8>),
    /// Puts an entity: its JSON.
    PutEntity(Items<u8>),
    /// Deletes the entity with the uid in this JSON.
    DeleteEntity(Items<u8>),
    /// Decides a request: its JSON.
    Authorize(Items<u8>),
    /// Makes a summary of the store.
    Summary,
    /// Makes a state: a message of the whole store.
    Offer,
    /// Makes a delta against the summary with this number.
    OfferDelta(usize),
    /// Applies the message with this number.
    Deliver(usize),
}

/// An operation at a site of the system.
#[derive(Drop)]
pub struct Event {
    /// The number of the site, from 1.
    pub site: usize,
    /// The operation.
    pub operation: Operation,
}

/// The reply to an event.
#[derive(Drop)]
pub enum EventReply {
    /// No site, message or summary has the number that the event names (code 30, bad shape). Nothing changed.
    Unknown,
    /// The site's reply to a command, a request or a delivered message.
    Replied(Reply),
    /// The number of the message that was made, from 0; or the error if none was made.
    Message(Result<usize, SiteFault>),
    /// The number of the summary that was made, from 0; or the error if none was made.
    Summary(Result<usize, SiteFault>),
}
