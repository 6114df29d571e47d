//! The inputs of a site.

/// An input of a site, not checked yet. Each part is borrowed bytes, as they came in.
#[derive(Clone, Copy)]
pub enum Input<'a> {
    /// Puts a policy: its id, and its text.
    PutPolicy(&'a [u8], &'a [u8]),
    /// Deletes the policy with this id.
    DeletePolicy(&'a [u8]),
    /// Puts an entity: its JSON.
    PutEntity(&'a [u8]),
    /// Deletes the entity with the uid in this JSON.
    DeleteEntity(&'a [u8]),
    /// Applies the updates of a message: a state or a delta of another site.
    Take(&'a [u8]),
    /// Decides a request: its JSON.
    Authorize(&'a [u8]),
    /// Asks for the text and the stamp of the policy with this id.
    GetPolicy(&'a [u8]),
    /// Asks for the state, as a message to other sites.
    State,
    /// Asks for the summary, as a message to other sites.
    Summary,
    /// Asks for a delta against another site's summary.
    Delta(&'a [u8]),
}
