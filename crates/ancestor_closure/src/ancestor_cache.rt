//! The ancestor cache of a hierarchy whose edges the caller has.
ghost use Rattle.std.specs.Prelude.{◌≡◌, ◌↔◌, ◌⊎◌, IsTrue, IsOk, IfOk, OnOk, OnErr, MatchOption};
ghost use Rattle.ancestor_search.specs.Hierarchy.{Parents, IsAncestor, AreAllAncestorsOf, IsAscending, AreOnCycles};
ghost use Rattle.ancestor_search.specs.Hierarchy.{referenced};
ghost use Rattle.ancestor_search.specs.Hierarchy.{no_parents, with_parents};
ghost use Rattle.ancestor_search.specs.LeastCycle.{HasNoCycle, IsLeastCycle};
ghost use Rattle.values.specs.declared.entity_uid.EntityUid.{EntityUid as PlainUid};
ghost use Rattle.ancestor_closure.specs.Lists.{IsListOf, ancestors_in};
ghost use Rattle.ancestor_closure.specs.CacheOf.{IsCacheOf, IsStaleAt};

use crate::budget::CacheBudget;
use crate::changing::follow;
use crate::cycles::{are_none, members};
use crate::lists::{is_in, lent};
use crate::relatives::{Relatives, ancestors_at};
use crate::whole_graph::{relatives_among, set_of};
use ancestor_search::{Graph, ParentsOf, least_cycle_among, on_cycles};
use plain::{NoMemory, Shared};
use std::alloc::Global;
use std::collections::{BTreeMap, BTreeSet};
use values::EntityUid;

/// An ancestor cache of a hierarchy: the ancestors of each entity (the transitive closure), the children of each
/// entity, and the cyclic entities.
///
/// The caller has the edges, and passes them to each call that needs them. In contracts a cache is right for a
/// hierarchy (`IsCacheOf`) if it has exactly the ancestors and the children of each entity, and the cyclic entities, of
/// this hierarchy. An ancestor takes 8 bytes in each list that contains it, or up to 16 while the list has spare
/// capacity (up to 32 in a list of one ancestor). The uid of an ancestor is stored twice (as a key, and shared among
/// the lists), however many lists contain the ancestor.
#[derive(Drop)]
pub struct AncestorCache {
    alloc: Global,
    // The ancestors and the children of each entity that has an entry. Other entities have neither.
    relatives: BTreeMap<EntityUid, Relatives>,
    // The cyclic entities.
    cyclic: BTreeSet<Shared<EntityUid>>,
    // How many lists of ancestors the last successful update rewrote.
    touched: usize,
}

// Returns whether `uid` is `parent` or an ancestor of `parent`.
fn is_self_or_ancestor(
    relatives: &BTreeMap<EntityUid, Relatives>,
    uid: &EntityUid,
    parent: &EntityUid,
) -> bool
    ensures { (before : Parents) → ((b : PlainUid) → IsListOf before b (ancestors_in relatives.now b)) →
        (IsTrue result ↔ ((parent.now ≡ uid.now) ⊎ IsAncestor before uid.now parent.now)) }
{
    if parent == uid {
        return true;
    }
    is_in(ancestors_at(relatives, parent), uid)
}

// Returns whether `parents` would make `uid` its own ancestor: whether one of them is `uid` or a descendant of `uid`.
fn leads_back(
    relatives: &BTreeMap<EntityUid, Relatives>,
    uid: &EntityUid,
    parents: &[EntityUid],
) -> bool
    ensures { (before : Parents) → ((b : PlainUid) → IsListOf before b (ancestors_in relatives.now b)) →
        (IsTrue result ↔ IsAncestor (with_parents before uid.now parents.now) uid.now uid.now) }
{
    for parent in parents {
        if is_self_or_ancestor(relatives, uid, parent) {
            return true;
        }
    }
    false
}

impl AncestorCache {
    /// Creates the cache of an empty hierarchy.
    pub fn new(alloc: Global) -> Self
        ensures { IsCacheOf no_parents result }
    {
        AncestorCache {
            alloc,
            relatives: BTreeMap::new(alloc),
            cyclic: BTreeSet::new(alloc),
            touched: 0,
        }
    }

    /// Creates the cache of a whole graph, by one search for each stored entity and one for the cyclic entities.
    ///
    /// # Errors
    ///
    /// - `NoMemory`: an allocation failed, or the budget `budget` is exceeded.
    pub fn of_graph<G: Graph>(
        alloc: Global,
        graph: &G,
        budget: &mut CacheBudget,
    ) -> Result<Self, NoMemory>
        ensures { IfOk result (λ kept. IsCacheOf (G.parents graph.now) kept) }
    {
        let uids = graph.stored_uids(alloc)?;
        let relatives = relatives_among(alloc, graph, &uids, budget)?;
        let found = on_cycles(alloc, graph)?;
        let cyclic = set_of(alloc, &relatives, &found)?;
        Ok(AncestorCache {
            alloc,
            relatives,
            cyclic,
            touched: 0,
        })
    }

    /// Updates the cache incrementally after a change of the parents of `uid`, given the changed graph. The cache must
    /// be right for a hierarchy that differs from `graph` at most in these parents. Of the lists of ancestors,
    /// rewrites only those of `uid` and of its descendants.
    ///
    /// # Errors
    ///
    /// - `NoMemory`: an allocation failed, or the budget `budget` is exceeded. The cache is then still right for the
    ///   graph before the change.
    pub fn follow<G: ParentsOf>(
        &mut self,
        graph: &G,
        uid: &EntityUid,
        budget: &mut CacheBudget,
    ) -> Result<(), NoMemory>
        requires { IsStaleAt uid.now (G.parents graph.now) self.old }
        ensures ok { OnOk result (IsCacheOf (G.parents graph.now) self.new) }
        ensures err { OnErr result ((before : Parents) → IsCacheOf before self.old → IsCacheOf before self.new) }
    {
        self.touched = follow(
            self.alloc,
            graph,
            &mut self.relatives,
            &mut self.cyclic,
            uid,
            budget,
        )?;
        Ok(())
    }

    /// Returns whether `a` is an ancestor of `b`. Looks up the entry of `b`, then `a` in that entry's ancestors. Does
    /// not allocate.
    pub fn has_ancestor(&self, a: &EntityUid, b: &EntityUid) -> bool
        ensures { (parents : Parents) → IsCacheOf parents self.now → (IsTrue result ↔ IsAncestor parents a.now b.now) }
    {
        is_in(ancestors_at(&self.relatives, b), a)
    }

    /// Returns all ancestors of `uid`, also those that are not stored, in ascending order. The only error is
    /// `NoMemory`.
    pub fn ancestors(&self, uid: &EntityUid) -> Result<Vec<&EntityUid>, NoMemory>
        ensures all { IfOk result (λ found.
            (parents : Parents) → IsCacheOf parents self.now
            → AreAllAncestorsOf parents uid.now (referenced found.items)) }
        ensures ascending { IfOk result (λ found.
            (parents : Parents) → IsCacheOf parents self.now → IsAscending (referenced found.items)) }
    {
        lent(self.alloc, ancestors_at(&self.relatives, uid))
    }

    /// Returns all cyclic entities, in ascending order, without a search. The only error is `NoMemory`. If no entity is
    /// cyclic, the call cannot fail and does not allocate.
    pub fn cyclic(&self) -> Result<Vec<&EntityUid>, NoMemory>
        ensures all { IfOk result (λ found.
            (parents : Parents) → IsCacheOf parents self.now → AreOnCycles parents (referenced found.items)) }
        ensures ascending { IfOk result (λ found. IsAscending (referenced found.items)) }
        ensures at_once { (parents : Parents) → IsCacheOf parents self.now → HasNoCycle parents → IsOk result }
    {
        if are_none(&self.cyclic) {
            return Ok(Vec::new(self.alloc));
        }
        members(self.alloc, &self.cyclic)
    }

    /// Returns the least cycle, as [`ancestor_search::least_cycle`] does, or `None` if there is no cycle. The cache
    /// must be right for `graph`. If there is no cycle, the call does not search or allocate, and cannot fail.
    pub fn least_cycle<'a, G: Graph>(
        &'a self,
        graph: &'a G,
    ) -> Result<Option<Vec<&'a EntityUid>>, NoMemory>
        requires { IsCacheOf (G.parents graph.now) self.now }
        ensures exact { let parents = G.parents graph.now in
            IfOk result (λ o. MatchOption o (HasNoCycle parents)
            (λ found. IsLeastCycle parents (referenced found.items))) }
        ensures at_once { HasNoCycle (G.parents graph.now) → IsOk result }
    {
        if are_none(&self.cyclic) {
            return Ok(None);
        }
        let cyclic = members(self.alloc, &self.cyclic)?;
        least_cycle_among(self.alloc, graph, &cyclic)
    }

    /// Returns whether `uid` would be its own ancestor if `parents` were its parents. Looks up at most one entry for
    /// each parent, then `uid` in that entry's ancestors. Does not allocate.
    pub fn would_cycle(&self, uid: &EntityUid, parents: &[EntityUid]) -> bool
        ensures { (before : Parents) → IsCacheOf before self.now →
            (IsTrue result ↔ IsAncestor (with_parents before uid.now parents.now) uid.now uid.now) }
    {
        leads_back(&self.relatives, uid, parents)
    }

    /// Returns how many lists of ancestors the last update rewrote: the list of the entity whose parents changed, and
    /// the lists of its descendants; 0 if the parents stayed the same. A failed update leaves the number unchanged.
    pub fn touched(&self) -> usize {
        self.touched
    }
}
