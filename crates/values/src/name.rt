//! Names of the entries of a store: of policies and of entities.
ghost use Rattle.std.specs.Prelude.{◌≡◌, IfOk};

use crate::entity_uid::EntityUid;
use extensions::{NoMemory, Text};

/// The name of an entry in a site's store: a policy's id or an entity's uid.
///
/// Policies come before entities; policies are ordered by the bytes of the id, and entities by their uids. A policy's
/// id is any string here: callers check that it has 1 to 256 bytes.
#[derive(PartialEq, Eq, PartialOrd, Ord, Drop)]
pub enum Name {
    /// A policy, by its id.
    Policy(Text),
    /// An entity, by its uid.
    Entity(EntityUid),
}

impl Name {
    /// Returns a copy of the name, or `NoMemory`.
    pub fn copy(&self) -> Result<Name, NoMemory>
        ensures { IfOk result (λ n. n ≡ self.now) }
    {
        match self {
            Name::Policy(id) => {
                let id = id.copy()?;
                Ok(Name::Policy(id))
            }
            Name::Entity(uid) => {
                let uid = uid.copy()?;
                Ok(Name::Entity(uid))
            }
        }
    }
}
