//! Entity uids: a type and an id.
ghost use Rattle.std.specs.Prelude.{◌≡◌, ◌↔◌, IsTrue, IfOk};

use crate::shared_text::SharedText;
use crate::type_name::TypeName;
use extensions::NoMemory;

/// The uid of an entity: its type's name and its id. Contracts see a record of two lists of bytes.
///
/// Uids are ordered by the bytes of the type's name, and then by those of the id. Copies share both strings: a copy is
/// two references of eight bytes each, and does not allocate.
#[derive(PartialEq, Eq, PartialOrd, Ord, Drop)]
pub struct EntityUid {
    /// The entity's type.
    pub type_name: TypeName,
    /// The entity's id, which may be any string.
    pub id: SharedText,
}

impl EntityUid {
    /// Returns whether two uids are equal. Does not allocate.
    ///
    /// Ids are compared first, since they differ more often than types do.
    pub fn same(&self, other: &EntityUid) -> bool
        ensures { IsTrue result ↔ (self.now ≡ other.now) }
    {
        self.id.same(&other.id) && self.type_name.same(&other.type_name)
    }

    /// Returns a copy that shares its strings. Does not allocate.
    ///
    /// # Errors
    ///
    /// - `NoMemory`: the count of references to a string would exceed 2^64 - 1.
    pub fn copy(&self) -> Result<EntityUid, NoMemory>
        ensures { IfOk result (λ u. u ≡ self.now) }
    {
        let type_name = self.type_name.copy()?;
        let id = self.id.copy()?;
        Ok(EntityUid { type_name, id })
    }
}
