//! Sources of entities.
ghost use Rattle.std.specs.Prelude.{◌≡◌, List, IfOk, option_map};
ghost use Rattle.values.specs.declared.entity_uid.EntityUid.{EntityUid};
ghost use Rattle.evaluator.specs.ancestor_search.Hierarchy.{IsAscending, referenced};
ghost use Rattle.entity_data.specs.Entities.{EntityMap, AreListed, attributes_of, kept_parents};

use plain::NoMemory;
use std::alloc::Global;
use values::{EntityUid, Record};

/// A source of entities, each with its attributes and its parents.
pub trait EntitySource {
    /// The data of each stored uid; `None` for any other uid.
    ghost kept: { Self → EntityMap };

    /// The uids that have data.
    ghost uids: { Self → List EntityUid };

    /// Returns the attributes of an entity, or `None` if and only if it is not stored. Does not allocate.
    fn attrs_at(&self, uid: &EntityUid) -> Option<&Record>
        ensures { option_map (λ r. r.now) result ≡ attributes_of (kept self.now uid.now) };

    /// Returns the parents of an entity; an empty slice if it is not stored. Does not allocate.
    fn parents_at(&self, uid: &EntityUid) -> &[EntityUid]
        ensures { result.now ≡ kept_parents (kept self.now uid.now) };

    /// Returns the uids of the stored entities, in ascending order. The only error is `NoMemory`.
    fn kept_uids(&self, alloc: Global) -> Result<Vec<&EntityUid>, NoMemory>
        ensures all { IfOk result (λ found. referenced found.items ≡ uids self.now) }
        ensures ascending { IfOk result (λ found. IsAscending (referenced found.items)) };

    /// The proof that `uids` are exactly the uids that have data.
    ghost listed: { (s : Self) → AreListed (kept s) (uids s) };
}
