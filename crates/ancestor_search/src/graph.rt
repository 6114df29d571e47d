//! The traits of graphs of entities, in which an edge leads from an entity to each of its parents.
ghost use Rattle.std.specs.Prelude.{◌≡◌, List, IfOk};
ghost use Rattle.std.specs.BTreeMap.{keys};
ghost use Rattle.values.specs.declared.entity_uid.EntityUid.{EntityUid};
ghost use Rattle.ancestor_search.specs.Hierarchy.{Parents, IsAscending, referenced, with_parents};
ghost use Rattle.ancestor_search.specs.Decided.{HaveAllParents};
ghost use Rattle.ancestor_search.specs.Search.{parents_of};
ghost use Rattle.ancestor_search.specs.Deciding.{map_has_all};

use plain::NoMemory;
use std::alloc::Global;
use std::collections::BTreeMap;
use values::EntityUid;

/// The parents of each entity: all that a search for ancestors needs.
pub trait ParentsOf {
    /// The parents of each entity; an entity that is not stored has none.
    ghost parents: { Self → Parents };

    /// Returns the parents of an entity; an empty slice if it is not stored.
    fn parents_of(&self, uid: &EntityUid) -> &[EntityUid]
        ensures { result.now ≡ parents self.now uid.now };
}

/// A graph that can list its stored entities. Each entity with parents is stored.
pub trait Graph: ParentsOf {
    /// The stored entities.
    ghost stored: { Self → List EntityUid };

    /// Returns the stored entities, ascending.
    fn stored_uids(&self, alloc: Global) -> Result<Vec<&EntityUid>, NoMemory>
        ensures all { IfOk result (λ uids. referenced uids.items ≡ stored self.now) }
        ensures ascending { IfOk result (λ uids. IsAscending (referenced uids.items)) };

    /// Each entity with parents is stored.
    ghost has_all: { (s : Self) → HaveAllParents (Self.parents s) (stored s) };
}

/// A map from each stored entity to its parents.
pub type Edges = BTreeMap<EntityUid, Vec<EntityUid>>;

impl ParentsOf for BTreeMap<EntityUid, Vec<EntityUid>> {
    ghost parents = { parents_of };

    fn parents_of(&self, uid: &EntityUid) -> &[EntityUid] {
        match self.get(uid) {
            Some(parents) => parents,
            None => &[],
        }
    }
}

impl Graph for BTreeMap<EntityUid, Vec<EntityUid>> {
    ghost stored = { keys };

    ghost has_all = { map_has_all };

    fn stored_uids(&self, alloc: Global) -> Result<Vec<&EntityUid>, NoMemory> {
        let _ordered = self.len();
        self.keys().collect(alloc)
    }
}

/// A graph as it would be after a change of one entity's parents. The graph itself is not changed.
#[derive(Clone, Copy)]
pub struct Changed<'a, G> {
    /// The graph before the change.
    pub graph: &'a G,
    /// The entity whose parents change.
    pub uid: &'a EntityUid,
    /// All its parents after the change.
    pub parents: &'a [EntityUid],
}

impl<G: ParentsOf> ParentsOf for Changed<'_, G> {
    ghost parents = { λ s. with_parents (G.parents s.graph.now) s.uid.now s.parents.now };

    fn parents_of(&self, uid: &EntityUid) -> &[EntityUid] {
        if self.uid == uid {
            self.parents
        } else {
            self.graph.parents_of(uid)
        }
    }
}
