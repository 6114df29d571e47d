//! The traits of a hierarchy of entities: its queries, and its changes.
ghost use Rattle.std.specs.Prelude.{◌≡◌, ◌↔◌, [], Bool, IsTrue, IfOk, OnOk, OnErr, MatchOption};
ghost use Rattle.values.specs.declared.entity_uid.EntityUid.{EntityUid};
ghost use Rattle.ancestor_search.specs.Hierarchy.{Parents, IsAncestor, AreAllAncestorsOf, IsAscending, AreOnCycles};
ghost use Rattle.ancestor_search.specs.Hierarchy.{referenced};
ghost use Rattle.ancestor_search.specs.Hierarchy.{with_parents};
ghost use Rattle.ancestor_search.specs.Decided.{Decides};
ghost use Rattle.ancestor_search.specs.LeastCycle.{HasNoCycle, IsLeastCycle};

use plain::NoMemory;
use values::EntityUid;

/// The ancestor relation of a hierarchy. An edge leads from an entity to each of its parents, stored or not; an
/// entity's ancestors are the entities to which a path of one or more edges leads from it. The only error of a query is
/// `NoMemory`.
pub trait Ancestry {
    /// The parents of each entity; an entity that is not stored has none.
    ghost parents: { Self → Parents };

    /// A test that computes whether the first entity is an ancestor of the second.
    ghost ancestor_test: { Self → EntityUid → EntityUid → Bool };

    /// Returns whether `a` is an ancestor of `b`. An entity that is its own ancestor is *cyclic*.
    fn is_ancestor(&self, a: &EntityUid, b: &EntityUid) -> Result<bool, NoMemory>
        ensures { IfOk result (λ yes. IsTrue yes ↔ IsAncestor (parents self.now) a.now b.now) };

    /// Returns all ancestors of `uid`, also those that are not stored, in ascending order.
    fn ancestors(&self, uid: &EntityUid) -> Result<Vec<&EntityUid>, NoMemory>
        ensures all { IfOk result (λ found. AreAllAncestorsOf (parents self.now) uid.now (referenced found.items)) }
        ensures ascending { IfOk result (λ found. IsAscending (referenced found.items)) };

    /// Returns all cyclic entities, in ascending order.
    fn cyclic(&self) -> Result<Vec<&EntityUid>, NoMemory>
        ensures all { IfOk result (λ found. AreOnCycles (parents self.now) (referenced found.items)) }
        ensures ascending { IfOk result (λ found. IsAscending (referenced found.items)) };

    /// Returns the least cycle, or `None` if there is no cycle.
    ///
    /// It begins with the least cyclic entity, is a shortest cycle through that entity, and the least of these,
    /// compared item by item. An edge leads from each entity to the next, and from the last to the first.
    fn least_cycle(&self) -> Result<Option<Vec<&EntityUid>>, NoMemory>
        ensures { IfOk result (λ o. MatchOption o (HasNoCycle (parents self.now))
            (λ found. IsLeastCycle (parents self.now) (referenced found.items))) };

    /// The test `ancestor_test` decides the ancestor relation.
    ghost ancestor_test_decides: { (s : Self) → Decides (parents s) (ancestor_test s) };
}

/// A hierarchy that can be changed. The only error of a change is `NoMemory`.
pub trait Hierarchy: Ancestry {
    /// Replaces the parents of an entity. If an allocation fails, nothing changes.
    fn set_parents(&mut self, uid: EntityUid, parents: Vec<EntityUid>) -> Result<(), NoMemory>
        ensures ok { OnOk result (Self.parents self.new ≡ with_parents (Self.parents self.old) uid parents.items) }
        ensures err { OnErr result (Self.parents self.new ≡ Self.parents self.old) };

    /// Removes an entity and the edges from it; edges to it stay. If an allocation fails, nothing changes.
    fn remove(&mut self, uid: &EntityUid) -> Result<(), NoMemory>
        ensures ok { OnOk result (Self.parents self.new ≡ with_parents (Self.parents self.old) uid.now []) }
        ensures err { OnErr result (Self.parents self.new ≡ Self.parents self.old) };

    /// Returns whether the entity would be its own ancestor if it had these parents.
    fn would_cycle(&self, uid: &EntityUid, parents: &[EntityUid]) -> Result<bool, NoMemory>
        ensures { let changed = with_parents (Self.parents self.now) uid.now parents.now in
            IfOk result (λ yes. IsTrue yes ↔ IsAncestor changed uid.now uid.now) };
}
