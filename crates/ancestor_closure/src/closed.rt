//! A hierarchy with an ancestor cache.
ghost use Rattle.std.specs.Prelude.{◌≡◌, ◌↔◌, [], IsTrue, IsOk, IfOk, OnOk, OnErr, IsSome, MatchOption};
ghost use Rattle.std.specs.BTreeMap.{get};
ghost use Rattle.values.specs.Names.{uid_cmp};
ghost use Rattle.ancestor_search.specs.Hierarchy.{IsAncestor, AreOnCycles, IsAscending, referenced};
ghost use Rattle.ancestor_search.specs.Hierarchy.{no_parents, with_parents};
ghost use Rattle.ancestor_search.specs.LeastCycle.{HasNoCycle, IsLeastCycle};
ghost use Rattle.ancestor_search.specs.Search.{parents_of};
ghost use Rattle.ancestor_closure.specs.CacheOf.{IsCacheOf};
ghost use Rattle.ancestor_closure.specs.ClosedMeaning.{closed_parents, closed_ancestor_test, closed_is_decided};

use crate::ancestor_cache::AncestorCache;
use crate::budget::CacheBudget;
use ancestor_search::{Ancestry, Changed, Hierarchy, ParentsOf};
use plain::NoMemory;
use std::alloc::Global;
use std::collections::BTreeMap;
use std::marker::Model;
use values::EntityUid;

/// A hierarchy: the parents of each stored entity, and an ancestor cache. Contracts see the parents.
///
/// A `Closed` is meant for single changes: each change rewrites the lists of the entity and of all its descendants.
/// Adding parents before their children costs at most one search for each entity. Adding children first costs, for each
/// entity, up to one search for the entity and one for each of its descendants. [`AncestorCache::of_graph`] builds the
/// cache of a whole graph at once.
#[derive(Drop)]
pub struct Closed {
    alloc: Global,
    edges: BTreeMap<EntityUid, Vec<EntityUid>>,
    kept: AncestorCache,
}

impl Model for Closed {
    ghost use Rattle.std.specs.Prelude.{List};
    ghost use Rattle.values.specs.declared.entity_uid.EntityUid.{EntityUid};
    ghost use Rattle.ancestor_search.specs.Search.{parents_of};
    ghost use Rattle.ancestor_closure.specs.ClosedMeaning.{closed_entries};
    ghost use Rattle.ancestor_closure.specs.CacheOf.{IsCacheOf};

    ghost Value = { List (EntityUid × List EntityUid) };

    ghost view = { λ c. closed_entries c.edges.entries };

    ghost invariant = { λ c. IsCacheOf (parents_of c.edges) c.kept };
}

// Adds an entry without parents for an entity, if the entity has no entry.
fn reserve_edges(
    alloc: Global,
    edges: &mut BTreeMap<EntityUid, Vec<EntityUid>>,
    uid: &EntityUid,
) -> Result<(), NoMemory>
    ensures same { parents_of edges.new ≡ parents_of edges.old }
    ensures there { OnOk result (IsSome (get uid_cmp edges.new uid.now)) }
{
    if !edges.contains_key(uid) {
        edges.insert(uid.copy()?, Vec::new(alloc))?;
    }
    Ok(())
}

// Returns whether an entity has no parents.
fn has_no_parents(edges: &BTreeMap<EntityUid, Vec<EntityUid>>, uid: &EntityUid) -> bool
    ensures { IsTrue result → parents_of edges.now uid.now ≡ [] }
{
    edges.parents_of(uid).is_empty()
}

// Removes the entry of an entity, if the entity has no parents.
fn release_edges(edges: &mut BTreeMap<EntityUid, Vec<EntityUid>>, uid: &EntityUid)
    ensures { parents_of edges.new ≡ parents_of edges.old }
{
    if !has_no_parents(edges, uid) {
        return;
    }
    edges.remove(uid);
}

// Writes the parents of an entity, which has an entry. Does not allocate.
fn write_edges(
    edges: &mut BTreeMap<EntityUid, Vec<EntityUid>>,
    uid: &EntityUid,
    parents: Vec<EntityUid>,
)
    requires { IsSome (get uid_cmp edges.old uid.now) }
    ensures { parents_of edges.new ≡ with_parents (parents_of edges.old) uid.now parents.items }
{
    match edges.get_mut(uid) {
        Some(known) => {
            *known = parents;
        }
        None => {}
    }
}

// Updates the cache for a change of an entity's parents that is not yet made in the edges.
fn follow_change(
    edges: &BTreeMap<EntityUid, Vec<EntityUid>>,
    kept: &mut AncestorCache,
    uid: &EntityUid,
    parents: &[EntityUid],
) -> Result<(), NoMemory>
    requires { IsCacheOf (parents_of edges.now) kept.old }
    ensures ok { OnOk result (IsCacheOf (with_parents (parents_of edges.now) uid.now parents.now) kept.new) }
    ensures err { OnErr result (IsCacheOf (parents_of edges.now) kept.new) }
{
    let changed = Changed {
        graph: edges,
        uid,
        parents,
    };
    let mut budget = CacheBudget::new(usize::MAX);
    kept.follow(&changed, uid, &mut budget)
}

// Replaces the parents of an entity, in the edges and in the cache. After an error the parents are unchanged.
fn set(
    alloc: Global,
    edges: &mut BTreeMap<EntityUid, Vec<EntityUid>>,
    kept: &mut AncestorCache,
    uid: &EntityUid,
    parents: Vec<EntityUid>,
) -> Result<(), NoMemory>
    requires { IsCacheOf (parents_of edges.old) kept.old }
    ensures kept { IsCacheOf (parents_of edges.new) kept.new }
    ensures ok { OnOk result (parents_of edges.new ≡ with_parents (parents_of edges.old) uid.now parents.items) }
    ensures err { OnErr result (parents_of edges.new ≡ parents_of edges.old) }
{
    reserve_edges(alloc, edges, uid)?;
    match follow_change(edges, kept, uid, &parents) {
        Ok(()) => {
            write_edges(edges, uid, parents);
            release_edges(edges, uid);
            Ok(())
        }
        Err(refused) => {
            release_edges(edges, uid);
            Err(refused)
        }
    }
}

// Removes an entity from the edges, and updates the cache. After an error its parents are unchanged.
fn unset(
    edges: &mut BTreeMap<EntityUid, Vec<EntityUid>>,
    kept: &mut AncestorCache,
    uid: &EntityUid,
) -> Result<(), NoMemory>
    requires { IsCacheOf (parents_of edges.old) kept.old }
    ensures kept { IsCacheOf (parents_of edges.new) kept.new }
    ensures ok { OnOk result (parents_of edges.new ≡ with_parents (parents_of edges.old) uid.now []) }
    ensures err { OnErr result (parents_of edges.new ≡ parents_of edges.old) }
{
    follow_change(edges, kept, uid, &[])?;
    edges.remove(uid);
    Ok(())
}

impl Closed {
    /// Creates an empty hierarchy.
    pub fn new(alloc: Global) -> Self
        ensures { ⟦<Closed as Ancestry>⟧.parents result ≡ no_parents }
    {
        Closed {
            alloc,
            edges: BTreeMap::new(alloc),
            kept: AncestorCache::new(alloc),
        }
    }

    /// Returns how many lists of ancestors the last change rewrote: that of the entity itself, even if it was removed,
    /// and those of its descendants. The number is 0 if the entity's parents stayed the same. A failed change leaves
    /// the number unchanged.
    pub fn touched(&self) -> usize {
        self.kept.touched()
    }
}

impl Ancestry for Closed {
    ghost parents = { closed_parents };

    ghost ancestor_test = { closed_ancestor_test };

    ghost ancestor_test_decides = { closed_is_decided };

    fn is_ancestor(&self, a: &EntityUid, b: &EntityUid) -> Result<bool, NoMemory>
        ensures always { IsOk result }
        ensures exact { IfOk result (λ yes. IsTrue yes ↔ IsAncestor (closed_parents self.now) a.now b.now) }
    {
        Ok(self.kept.has_ancestor(a, b))
    }

    fn ancestors(&self, uid: &EntityUid) -> Result<Vec<&EntityUid>, NoMemory> {
        self.kept.ancestors(uid)
    }

    fn cyclic(&self) -> Result<Vec<&EntityUid>, NoMemory>
        ensures at_once { HasNoCycle (closed_parents self.now) → IsOk result }
        ensures all { IfOk result (λ found. AreOnCycles (closed_parents self.now) (referenced found.items)) }
        ensures ascending { IfOk result (λ found. IsAscending (referenced found.items)) }
    {
        self.kept.cyclic()
    }

    fn least_cycle(&self) -> Result<Option<Vec<&EntityUid>>, NoMemory>
        ensures at_once { HasNoCycle (closed_parents self.now) → IsOk result }
        ensures exact { let parents = closed_parents self.now in
            IfOk result (λ o. MatchOption o (HasNoCycle parents)
            (λ found. IsLeastCycle parents (referenced found.items))) }
    {
        self.kept.least_cycle(&self.edges)
    }
}

impl Hierarchy for Closed {
    fn set_parents(&mut self, uid: EntityUid, parents: Vec<EntityUid>) -> Result<(), NoMemory> {
        set(self.alloc, &mut self.edges, &mut self.kept, &uid, parents)
    }

    fn remove(&mut self, uid: &EntityUid) -> Result<(), NoMemory> {
        unset(&mut self.edges, &mut self.kept, uid)
    }

    fn would_cycle(&self, uid: &EntityUid, parents: &[EntityUid]) -> Result<bool, NoMemory>
        ensures always { IsOk result }
        ensures exact { let changed = with_parents (closed_parents self.now) uid.now parents.now in
            IfOk result (λ yes. IsTrue yes ↔ IsAncestor changed uid.now uid.now) }
    {
        Ok(self.kept.would_cycle(uid, parents))
    }
}
