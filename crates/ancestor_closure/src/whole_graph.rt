//! The ancestor cache of a whole graph, built from scratch.
ghost use Rattle.std.specs.Prelude.{◌≡◌, ◌↔◌, ◌⊎◌, [], Contains, IfOk, OnOk};
ghost use Rattle.values.specs.declared.entity_uid.EntityUid.{EntityUid as PlainUid};
ghost use Rattle.ancestor_search.specs.Hierarchy.{referenced};
ghost use Rattle.ancestor_search.specs.inner.Backwards.{AreChildrenAmong};
ghost use Rattle.ancestor_closure.specs.Lists.{ancestors_in, children_in, SameLists, SameChildren};
ghost use Rattle.ancestor_closure.specs.Lists.{HasEntry, KeepEntries, AddsChild};
ghost use Rattle.ancestor_closure.specs.inner.WholeGraph.{AreListsOf};

use crate::budget::CacheBudget;
use crate::changing::{add_entries, parents_by};
use crate::children::add_to_all;
use crate::lists::{list_within, shared_all};
use crate::relatives::{Relatives, shared, write_list};
use ancestor_search::ParentsOf;
use plain::{NoMemory, Shared};
use std::alloc::Global;
use std::collections::{BTreeMap, BTreeSet};
use values::EntityUid;

// Adds an entity to the children of each of these parents.
fn add_to_parents(
    alloc: Global,
    relatives: &mut BTreeMap<EntityUid, Relatives>,
    uid: &EntityUid,
    parents: &[&EntityUid],
) -> Result<(), NoMemory>
    requires { (x : PlainUid) → Contains (referenced parents.now) x → HasEntry relatives.old x }
    ensures lists { SameLists relatives.old relatives.new }
    ensures stay { KeepEntries relatives.old relatives.new }
    ensures adds { AddsChild (referenced parents.now) uid.now (children_in relatives.old) (children_in relatives.new) }
    ensures added { OnOk result ((x : PlainUid) →
        Contains (referenced parents.now) x → Contains (children_in relatives.new x) uid.now) }
{
    let name = shared(alloc, relatives, uid)?;
    let after = shared_all(alloc, relatives, parents)?;
    add_to_all(relatives, &after, &name)
}

// Adds an entity to the children of its parents. The entity and its parents get entries first if they have none.
fn add_edges<G: ParentsOf>(
    alloc: Global,
    graph: &G,
    relatives: &mut BTreeMap<EntityUid, Relatives>,
    uid: &EntityUid,
) -> Result<(), NoMemory>
    ensures lists { SameLists relatives.old relatives.new }
    ensures stay { KeepEntries relatives.old relatives.new }
    ensures there { OnOk result (HasEntry relatives.new uid.now) }
    ensures adds { OnOk result ((x y : PlainUid) → Contains (children_in relatives.new x) y ↔
        (Contains (children_in relatives.old x) y ⊎ (Contains (G.parents graph.now uid.now) x × (uid.now ≡ y)))) }
{
    let parents = parents_by(alloc, graph, uid)?;
    add_entries(alloc, relatives, uid, &parents)?;
    add_to_parents(alloc, relatives, uid, &parents)
}

// Returns entries that have, for each entity, its children among `uids`; the lists of ancestors are empty.
fn children_among<G: ParentsOf>(
    alloc: Global,
    graph: &G,
    uids: &[&EntityUid],
) -> Result<BTreeMap<EntityUid, Relatives>, NoMemory>
    ensures lists { IfOk result (λ m. (q : PlainUid) → ancestors_in m q ≡ []) }
    ensures there { IfOk result (λ m. (q : PlainUid) → Contains (referenced uids.now) q → HasEntry m q) }
    ensures children { IfOk result (λ m. AreChildrenAmong (referenced uids.now) (G.parents graph.now) (children_in m)) }
{
    let mut relatives = BTreeMap::new(alloc);
    for uid in uids {
        add_edges(alloc, graph, &mut relatives, uid)?;
    }
    Ok(relatives)
}

// Writes the ancestors of each of these entities, within the budget.
fn write_lists<G: ParentsOf>(
    alloc: Global,
    graph: &G,
    relatives: &mut BTreeMap<EntityUid, Relatives>,
    uids: &[&EntityUid],
    budget: &mut CacheBudget,
) -> Result<(), NoMemory>
    requires lists { (q : PlainUid) → ancestors_in relatives.old q ≡ [] }
    requires there { (q : PlainUid) → Contains (referenced uids.now) q → HasEntry relatives.old q }
    ensures lists { OnOk result (AreListsOf (G.parents graph.now) (referenced uids.now) (ancestors_in relatives.new)) }
    ensures children { SameChildren relatives.old relatives.new }
{
    for uid in uids {
        let list = list_within(alloc, graph, relatives, uid, budget)?;
        write_list(relatives, uid, list);
    }
    Ok(())
}

/// Returns the entries of a cache: the ancestors of each of the entities `uids`, within the budget, and, for each
/// entity, its children among `uids`.
pub(crate) fn relatives_among<G: ParentsOf>(
    alloc: Global,
    graph: &G,
    uids: &[&EntityUid],
    budget: &mut CacheBudget,
) -> Result<BTreeMap<EntityUid, Relatives>, NoMemory>
    ensures lists { IfOk result (λ m. AreListsOf (G.parents graph.now) (referenced uids.now) (ancestors_in m)) }
    ensures children { IfOk result (λ m. AreChildrenAmong (referenced uids.now) (G.parents graph.now) (children_in m)) }
{
    let mut relatives = children_among(alloc, graph, uids)?;
    write_lists(alloc, graph, &mut relatives, uids, budget)?;
    Ok(relatives)
}

/// Returns these entities as a set of shared uids.
pub(crate) fn set_of(
    alloc: Global,
    relatives: &BTreeMap<EntityUid, Relatives>,
    uids: &[&EntityUid],
) -> Result<BTreeSet<Shared<EntityUid>>, NoMemory>
    ensures { IfOk result (λ found. (x : PlainUid) → Contains found.keys x ↔ Contains (referenced uids.now) x) }
{
    let mut found = BTreeSet::new(alloc);
    for uid in uids {
        found.insert(shared(alloc, relatives, uid)?)?;
    }
    Ok(found)
}
