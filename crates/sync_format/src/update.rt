//! Updates: names with their entries.
use plain::Text;
use stamped_store::Entry;
use values::EntityUid;

/// An update that was parsed from a message: a name with an entry. The body is the text with its parsed value, or
/// `None` for a tombstone.
///
/// A store applies the update without parsing the text again, and converts a policy's id to a `String` without an
/// allocation.
#[derive(Drop)]
pub enum Update<P, E> {
    /// An update of a policy.
    Policy {
        /// The policy's id.
        id: Text,
        /// The stamp and the body.
        entry: Entry<P>,
    },
    /// An update of an entity.
    Entity {
        /// The entity's uid.
        uid: EntityUid,
        /// The stamp and the body.
        entry: Entry<E>,
    },
}
