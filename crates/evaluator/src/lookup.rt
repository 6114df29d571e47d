//! Queries of the stored entities.
ghost use Rattle.std.specs.Prelude.{◌≡◌, ⊤, Option, List, [], MatchOption, option_map};
ghost use Rattle.values.specs.declared.entity_uid.EntityUid.{EntityUid};
ghost use Rattle.values.specs.Fields.{Field};

use ancestor_search::Ancestry;
use values::{EntityUid, Record};

/// The stored entities: their ancestors and their attributes.
pub trait Lookup: Ancestry {
    /// The attributes of each stored entity; `None` for an entity that is not stored.
    ghost stored: { Self → EntityUid → Option (List Field) };

    /// Returns the attributes of an entity, or `None` if and only if it is not stored. An entity that is not stored
    /// has no parents. Does not allocate.
    fn attrs_of(&self, uid: &EntityUid) -> Option<&Record>
        ensures attributes { option_map (λ r. r.now) result ≡ stored self.now uid.now }
        ensures alone { MatchOption result (Self.parents self.now uid.now ≡ []) (λ _. ⊤) };
}
