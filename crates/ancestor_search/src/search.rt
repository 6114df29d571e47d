//! The search for the ancestors of an entity, in any graph.
ghost use Rattle.std.specs.Prelude.{◌^◌, ◌<◌, Contains, IsTrue, ◌↔◌, IfOk, OnOk};
ghost use Rattle.std.specs.BTreeSet.{btree_set_len};
ghost use Rattle.ancestor_search.specs.Hierarchy.{IsAncestor, AreAllAncestorsOf, IsAscending, referenced, with_parents};
ghost use Rattle.ancestor_search.specs.Search.{AddsUnseen};

use crate::graph::{Changed, ParentsOf};
use crate::lists::listed;
use plain::NoMemory;
use std::alloc::Global;
use std::collections::BTreeSet;
use values::EntityUid;

// Returns whether the list contains an entity.
fn has(entities: &[EntityUid], uid: &EntityUid) -> bool
    ensures { IsTrue result ↔ Contains entities.now uid.now }
{
    entities.contains(uid)
}

// Adds to `seen` and to `work` each of the parents that `seen` does not contain.
fn add_parents<'a>(
    parents: &'a [EntityUid],
    seen: &mut BTreeSet<&'a EntityUid>,
    work: &mut Vec<&'a EntityUid>,
) -> Result<(), NoMemory>
    ensures adds { OnOk result
        (AddsUnseen parents.now (referenced seen.old.keys) (referenced work.old.items) (referenced seen.new.keys)
        (referenced work.new.items)) }
    ensures small { OnOk result (btree_set_len seen.new < 2 ^ 63) }
{
    for parent in parents {
        if seen.insert(parent)? {
            work.push(parent)?;
        }
    }
    let _small = seen.len();
    Ok(())
}

// Returns all ancestors of an entity, by a search.
fn ancestor_set<'a, G: ParentsOf>(
    alloc: Global,
    graph: &'a G,
    uid: &EntityUid,
) -> Result<BTreeSet<&'a EntityUid>, NoMemory>
    ensures { IfOk result (λ found. AreAllAncestorsOf (G.parents graph.now) uid.now (referenced found.keys)) }
{
    let mut seen = BTreeSet::new(alloc);
    let mut work = Vec::new(alloc);
    add_parents(graph.parents_of(uid), &mut seen, &mut work)?;
    while let Some(next) = work.pop() {
        add_parents(graph.parents_of(next), &mut seen, &mut work)?;
    }
    Ok(seen)
}

/// Returns whether `a` is an ancestor of `b`. The search ends at the first path found. The only error is `NoMemory`.
pub fn is_ancestor<'a, G: ParentsOf>(
    alloc: Global,
    graph: &'a G,
    a: &'a EntityUid,
    b: &EntityUid,
) -> Result<bool, NoMemory>
    ensures { IfOk result (λ yes. IsTrue yes ↔ IsAncestor (G.parents graph.now) a.now b.now) }
{
    let parents = graph.parents_of(b);
    if has(parents, a) {
        return Ok(true);
    }
    let mut seen = BTreeSet::new(alloc);
    let mut work = Vec::new(alloc);
    add_parents(parents, &mut seen, &mut work)?;
    while let Some(next) = work.pop() {
        let further = graph.parents_of(next);
        if has(further, a) {
            return Ok(true);
        }
        add_parents(further, &mut seen, &mut work)?;
    }
    Ok(seen.contains(&a))
}

/// Returns all ancestors of `uid`, also those that are not stored, in ascending order. The only error is `NoMemory`.
pub fn ancestors_of<'a, G: ParentsOf>(
    alloc: Global,
    graph: &'a G,
    uid: &EntityUid,
) -> Result<Vec<&'a EntityUid>, NoMemory>
    ensures all { IfOk result (λ found. AreAllAncestorsOf (G.parents graph.now) uid.now (referenced found.items)) }
    ensures ascending { IfOk result (λ found. IsAscending (referenced found.items)) }
{
    listed(alloc, ancestor_set(alloc, graph, uid)?)
}

/// Returns whether `uid` would be its own ancestor if it had these parents. The only error is `NoMemory`.
pub fn would_cycle<G: ParentsOf>(
    alloc: Global,
    graph: &G,
    uid: &EntityUid,
    parents: &[EntityUid],
) -> Result<bool, NoMemory>
    ensures { let changed = with_parents (G.parents graph.now) uid.now parents.now in
        IfOk result (λ yes. IsTrue yes ↔ IsAncestor changed uid.now uid.now) }
{
    let changed = Changed {
        graph,
        uid,
        parents,
    };
    is_ancestor(alloc, &changed, uid, uid)
}
