//! The answer to a request, with the determining and the erroring policies.
use crate::outcome::PolicyError;
use plain::{Items, Text};
use values::EntityUid;

/// The decision on a request.
#[derive(Clone, Copy)]
pub enum Decision {
    Allow,
    Deny,
}

/// An erroring policy, with its error.
#[derive(Drop)]
pub struct ErringPolicy {
    /// The policy's id.
    pub policy: Text,
    /// The error of its evaluation.
    pub error: PolicyError,
}

/// The answer to a request. It owns its parts.
#[derive(Drop)]
pub struct Answer {
    /// Whether the request is allowed.
    pub decision: Decision,
    /// The ids of the determining policies: the satisfied permits if the decision is `Allow`, else the satisfied
    /// forbids. The ids are in the order in which the caller passed the policies.
    pub reason: Items<Text>,
    /// The erroring policies, in the same order.
    pub errors: Items<ErringPolicy>,
    /// The least cycle, if some entity is cyclic; otherwise empty.
    ///
    /// Each entity has the next as a parent, and the last has the first. The cycle begins with the least cyclic entity,
    /// by type and then id; it is a shortest cycle through that entity, and the least of these, compared item by item.
    /// If there is a cycle, no policy was evaluated.
    pub cycle: Items<EntityUid>,
}
