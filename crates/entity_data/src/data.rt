//! The data of a stored entity (cedar-spec, cedar-lean/Cedar/Spec/Entities.lean, `EntityData`).

use crate::uid_set::UidSet;
use values::Record;

/// The attributes and the parents of an entity.
#[derive(Drop)]
pub struct EntityData {
    pub attrs: Record,
    pub parents: UidSet,
}
