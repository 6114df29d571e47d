//! An entity (Cedar reference guide 4.0, "Entities and context").

use crate::uid_set::UidSet;
use values::{EntityUid, Record};

/// An entity with its attributes and its parents.
#[derive(Drop)]
pub struct Entity {
    pub uid: EntityUid,
    pub attrs: Record,
    pub parents: UidSet,
}
