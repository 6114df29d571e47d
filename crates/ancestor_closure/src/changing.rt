//! Incremental updates of the ancestor cache when the parents of one entity change.
//!
//! The lists that change are those of the entity and of its descendants; no other list is written. Everything that
//! allocates comes first. The new lists are computed. Then the entities that become cyclic are added to the set of
//! cyclic entities, and the entity is added to the children of its new parents. If an allocation fails, these additions
//! are removed again. Otherwise the rest follows without allocating. The lists are written, the entity is removed from
//! the children of its former parents, and the entities that are no longer cyclic are removed from the set.
ghost use Rattle.std.specs.Prelude.{◌≡◌, ◌↔◌, ◌⊎◌, [], ◌∷◌, ◌++◌, Contains, IsTrue, IfOk, OnOk, OnErr};
ghost use Rattle.values.specs.declared.entity_uid.EntityUid.{EntityUid as PlainUid};
ghost use Rattle.ancestor_search.specs.Hierarchy.{Parents, IsAscending, referenced};
ghost use Rattle.ancestor_closure.specs.Lists.{IsCacheContent, ancestors_in, children_in, IsStaleContent};
ghost use Rattle.ancestor_closure.specs.Lists.{SameLists, SameChildren, HasEntry, KeepEntries, AddsChild};
ghost use Rattle.ancestor_closure.specs.inner.OneChange.{TakesChild, firsts, written, IsInOwn, ListsAscend, Enters};
ghost use Rattle.ancestor_closure.specs.inner.OneChange.{AreListsBut, Leaves, IsPlanned};

use crate::budget::CacheBudget;
use crate::by_parent::new_lists;
use crate::children::{add_to_all, entity_and_descendants, take_from_all};
use crate::cycles::{enter_all, leave_all};
use crate::lists::{are_among, are_in, shared_all, write_all};
use crate::relatives::{Relatives, ancestors_at, is_child, release, release_all, reserve, shared};
use ancestor_search::{ParentsOf, listed};
use plain::{NoMemory, Shared};
use std::alloc::Global;
use std::collections::{BTreeMap, BTreeSet};
use values::EntityUid;

/// A change of the parents of an entity.
#[derive(Drop)]
pub(crate) struct Change {
    /// The entity whose parents change.
    uid: Shared<EntityUid>,
    /// Its parents before the change, ascending.
    before: Vec<Shared<EntityUid>>,
    /// Its parents after the change, ascending.
    after: Vec<Shared<EntityUid>>,
    /// The entity and its descendants.
    entities: Vec<Shared<EntityUid>>,
    /// The new list of ancestors of each of these entities.
    lists: Vec<(Shared<EntityUid>, Vec<Shared<EntityUid>>)>,
}

// Returns references to these uids, ascending and without duplicates.
fn ascending<'a>(alloc: Global, uids: &'a [EntityUid]) -> Result<Vec<&'a EntityUid>, NoMemory>
    ensures all { IfOk result (λ found. (x : PlainUid) → Contains (referenced found.items) x ↔ Contains uids.now x) }
    ensures ascending { IfOk result (λ found. IsAscending (referenced found.items)) }
{
    let mut found = BTreeSet::new(alloc);
    for uid in uids {
        found.insert(uid)?;
    }
    listed(alloc, found)
}

/// Returns the parents of an entity, ascending and without duplicates. The only error is `NoMemory`.
pub fn parents_by<'a, G: ParentsOf>(
    alloc: Global,
    graph: &'a G,
    uid: &EntityUid,
) -> Result<Vec<&'a EntityUid>, NoMemory>
    ensures all { IfOk result (λ found.
        (x : PlainUid) → Contains (referenced found.items) x ↔ Contains (G.parents graph.now uid.now) x) }
    ensures ascending { IfOk result (λ found. IsAscending (referenced found.items)) }
{
    ascending(alloc, graph.parents_of(uid))
}

// Adds an empty entry for each of these entities that has none.
fn reserve_all(
    alloc: Global,
    relatives: &mut BTreeMap<EntityUid, Relatives>,
    uids: &[&EntityUid],
) -> Result<(), NoMemory>
    ensures lists { SameLists relatives.old relatives.new }
    ensures children { SameChildren relatives.old relatives.new }
    ensures stay { KeepEntries relatives.old relatives.new }
    ensures there { OnOk result ((x : PlainUid) → Contains (referenced uids.now) x → HasEntry relatives.new x) }
{
    for uid in uids {
        reserve(alloc, relatives, uid)?;
    }
    Ok(())
}

/// Adds an empty entry for `uid` and for each of `parents`, if it has none. The only error is `NoMemory`; after it some
/// of these entries may be missing.
pub fn add_entries(
    alloc: Global,
    relatives: &mut BTreeMap<EntityUid, Relatives>,
    uid: &EntityUid,
    parents: &[&EntityUid],
) -> Result<(), NoMemory>
    ensures lists { SameLists relatives.old relatives.new }
    ensures children { SameChildren relatives.old relatives.new }
    ensures stay { KeepEntries relatives.old relatives.new }
    ensures there { OnOk result (HasEntry relatives.new uid.now) }
    ensures parents_there { OnOk result
        ((x : PlainUid) → Contains (referenced parents.now) x → HasEntry relatives.new x) }
{
    reserve(alloc, relatives, uid)?;
    reserve_all(alloc, relatives, parents)
}

// Appends `entity` to `found` if `child` is one of its children.
fn add_if_parent(
    relatives: &BTreeMap<EntityUid, Relatives>,
    found: &mut Vec<Shared<EntityUid>>,
    entity: &Shared<EntityUid>,
    child: &Shared<EntityUid>,
) -> Result<(), NoMemory>
    ensures { let is_parent = Contains (children_in relatives.now entity.now) child.now in
        OnOk result ((is_parent × (found.new.items ≡ found.old.items ++ entity.now ∷ []))
        ⊎ ((is_parent → ⊥) × (found.new.items ≡ found.old.items))) }
{
    if !is_child(relatives, entity, child) {
        return Ok(());
    }
    found.push(entity.share()?)?;
    Ok(())
}

// Returns those of `entities` that have `child` as a child.
fn those_with_child(
    alloc: Global,
    relatives: &BTreeMap<EntityUid, Relatives>,
    entities: &[Shared<EntityUid>],
    child: &Shared<EntityUid>,
) -> Result<Vec<Shared<EntityUid>>, NoMemory>
    ensures all { IfOk result (λ found. (x : PlainUid) → Contains found.items x ↔
        (Contains entities.now x × Contains (children_in relatives.now x) child.now)) }
    ensures ascending { IfOk result (λ found. IsAscending entities.now → IsAscending found.items) }
{
    let mut found = Vec::new(alloc);
    for entity in entities {
        add_if_parent(relatives, &mut found, entity, child)?;
    }
    Ok(found)
}

// Returns the parents of an entity before the change: those of its cached ancestors that have it as a child.
fn parents_before(
    alloc: Global,
    relatives: &BTreeMap<EntityUid, Relatives>,
    uid: &Shared<EntityUid>,
) -> Result<Vec<Shared<EntityUid>>, NoMemory>
    ensures all { IfOk result (λ found. (x : PlainUid) → Contains found.items x ↔
        (Contains (ancestors_in relatives.now uid.now) x × Contains (children_in relatives.now x) uid.now)) }
    ensures ascending { IfOk result (λ found.
        IsAscending (ancestors_in relatives.now uid.now) → IsAscending found.items) }
{
    those_with_child(alloc, relatives, ancestors_at(relatives, uid), uid)
}

// Returns the change that gives an entity the parents that it has in the graph, within the budget `budget`. `parents`
// are these parents, ascending.
fn planned<G: ParentsOf>(
    alloc: Global,
    graph: &G,
    relatives: &BTreeMap<EntityUid, Relatives>,
    uid: &EntityUid,
    parents: &[&EntityUid],
    budget: &mut CacheBudget,
) -> Result<Change, NoMemory>
    requires all { (x : PlainUid) → Contains (referenced parents.now) x ↔ Contains (G.parents graph.now uid.now) x }
    requires ascending { IsAscending (referenced parents.now) }
    requires known { AreListsBut uid.now (G.parents graph.now)
        (ancestors_in relatives.now) (children_in relatives.now) }
    ensures { IfOk result (λ change. IsPlanned (G.parents graph.now) uid.now
        (ancestors_in relatives.now) (children_in relatives.now) change) }
{
    let name = shared(alloc, relatives, uid)?;
    let before = parents_before(alloc, relatives, &name)?;
    let after = shared_all(alloc, relatives, parents)?;
    let entities = entity_and_descendants(alloc, relatives, uid)?;
    let lists = new_lists(alloc, graph, relatives, &name, &after, &entities, budget)?;
    Ok(Change {
        uid: name,
        before,
        after,
        entities,
        lists,
    })
}

// Adds the entity to the children of its new parents, and the entities that become cyclic to `cyclic`. After an error
// some of these may be added.
fn begin(
    relatives: &mut BTreeMap<EntityUid, Relatives>,
    cyclic: &mut BTreeSet<Shared<EntityUid>>,
    change: &Change,
) -> Result<(), NoMemory>
    requires ascend { ListsAscend change.now.lists.items }
    requires there { (x : PlainUid) → Contains change.now.after.items x → HasEntry relatives.old x }
    ensures lists { SameLists relatives.old relatives.new }
    ensures stay { KeepEntries relatives.old relatives.new }
    ensures adds { AddsChild change.now.after.items change.now.uid
        (children_in relatives.old) (children_in relatives.new) }
    ensures added { OnOk result ((x : PlainUid) →
        Contains change.now.after.items x → Contains (children_in relatives.new x) change.now.uid) }
    ensures enters { Enters change.now.lists.items cyclic.old.keys cyclic.new.keys }
    ensures entered { OnOk result ((x : PlainUid) → IsInOwn change.now.lists.items x → Contains cyclic.new.keys x) }
{
    enter_all(cyclic, &change.lists)?;
    add_to_all(relatives, &change.after, &change.uid)
}

// Removes again what `begin` added.
fn undo(
    relatives: &mut BTreeMap<EntityUid, Relatives>,
    cyclic: &mut BTreeSet<Shared<EntityUid>>,
    change: &Change,
)
    requires before_ascends { IsAscending change.now.before.items }
    requires ascend { (q : PlainUid) → IsAscending (ancestors_in relatives.old q) }
    ensures lists { SameLists relatives.old relatives.new }
    ensures takes { TakesChild change.now.after.items change.now.before.items change.now.uid
        (children_in relatives.old) (children_in relatives.new) }
    ensures leaves { Leaves change.now.entities.items (ancestors_in relatives.new) cyclic.old.keys cyclic.new.keys }
{
    take_from_all(relatives, &change.after, &change.before, &change.uid);
    leave_all(cyclic, relatives, &change.entities);
}

// Writes the new lists, removes the entity from the children of its former parents, and removes the entities that are
// no longer cyclic from `cyclic`.
fn finish(
    relatives: &mut BTreeMap<EntityUid, Relatives>,
    cyclic: &mut BTreeSet<Shared<EntityUid>>,
    change: Change,
)
    requires after_ascends { IsAscending change.after.items }
    requires there { (q : PlainUid) → Contains (firsts change.lists.items) q → HasEntry relatives.old q }
    requires ascend { (q : PlainUid) → IsAscending (written change.lists.items q (ancestors_in relatives.old q)) }
    ensures lists { (q : PlainUid) →
        ancestors_in relatives.new q ≡ written change.lists.items q (ancestors_in relatives.old q) }
    ensures takes { TakesChild change.before.items change.after.items change.uid
        (children_in relatives.old) (children_in relatives.new) }
    ensures leaves { Leaves change.entities.items (ancestors_in relatives.new) cyclic.old.keys cyclic.new.keys }
{
    let Change {
        uid,
        before,
        after,
        entities,
        lists,
    } = change;
    write_all(relatives, lists);
    take_from_all(relatives, &before, &after, &uid);
    leave_all(cyclic, relatives, &entities);
}

// Makes the change that gives an entity `parents`, within the budget `budget`; returns how many lists were written.
// After an error the cache is right for each graph that it was right for.
fn make<G: ParentsOf>(
    alloc: Global,
    graph: &G,
    relatives: &mut BTreeMap<EntityUid, Relatives>,
    cyclic: &mut BTreeSet<Shared<EntityUid>>,
    uid: &EntityUid,
    parents: &[&EntityUid],
    budget: &mut CacheBudget,
) -> Result<usize, NoMemory>
    requires all { (x : PlainUid) → Contains (referenced parents.now) x ↔ Contains (G.parents graph.now uid.now) x }
    requires ascending { IsAscending (referenced parents.now) }
    requires kept { IsStaleContent uid.now (G.parents graph.now)
        (ancestors_in relatives.old) (children_in relatives.old) cyclic.old.keys }
    requires there { HasEntry relatives.old uid.now }
    requires parents_there { (x : PlainUid) → Contains (referenced parents.now) x → HasEntry relatives.old x }
    ensures ok { OnOk result (IsCacheContent (G.parents graph.now)
        (ancestors_in relatives.new) (children_in relatives.new) cyclic.new.keys) }
    ensures err { OnErr result ((before : Parents) →
        IsCacheContent before (ancestors_in relatives.old) (children_in relatives.old) cyclic.old.keys →
        IsCacheContent before (ancestors_in relatives.new) (children_in relatives.new) cyclic.new.keys) }
{
    let change = planned(alloc, graph, relatives, uid, parents, budget)?;
    let touched = change.entities.len();
    match begin(relatives, cyclic, &change) {
        Ok(()) => {
            finish(relatives, cyclic, change);
            Ok(touched)
        }
        Err(refused) => {
            undo(relatives, cyclic, &change);
            Err(refused)
        }
    }
}

// Adds missing entries of the entity and its parents, and then makes the change as `make` does.
fn make_with_room<G: ParentsOf>(
    alloc: Global,
    graph: &G,
    relatives: &mut BTreeMap<EntityUid, Relatives>,
    cyclic: &mut BTreeSet<Shared<EntityUid>>,
    uid: &EntityUid,
    parents: &[&EntityUid],
    budget: &mut CacheBudget,
) -> Result<usize, NoMemory>
    requires all { (x : PlainUid) → Contains (referenced parents.now) x ↔ Contains (G.parents graph.now uid.now) x }
    requires ascending { IsAscending (referenced parents.now) }
    requires kept { IsStaleContent uid.now (G.parents graph.now)
        (ancestors_in relatives.old) (children_in relatives.old) cyclic.old.keys }
    ensures ok { OnOk result (IsCacheContent (G.parents graph.now)
        (ancestors_in relatives.new) (children_in relatives.new) cyclic.new.keys) }
    ensures err { OnErr result ((before : Parents) →
        IsCacheContent before (ancestors_in relatives.old) (children_in relatives.old) cyclic.old.keys →
        IsCacheContent before (ancestors_in relatives.new) (children_in relatives.new) cyclic.new.keys) }
{
    add_entries(alloc, relatives, uid, parents)?;
    make(alloc, graph, relatives, cyclic, uid, parents, budget)
}

// Returns whether an entity has no cached ancestors and no new parents.
fn has_none(
    relatives: &BTreeMap<EntityUid, Relatives>,
    uid: &EntityUid,
    parents: &[&EntityUid],
) -> bool
    ensures { IsTrue result ↔ ((referenced parents.now ≡ []) × (ancestors_in relatives.now uid.now ≡ [])) }
{
    if parents.is_empty() {
        return ancestors_at(relatives, uid).is_empty();
    }
    false
}

// Returns whether the parents that an entity has in the cache are exactly these.
fn has_already(
    alloc: Global,
    relatives: &BTreeMap<EntityUid, Relatives>,
    uid: &EntityUid,
    parents: &[&EntityUid],
) -> Result<bool, NoMemory>
    requires list { IsAscending (ancestors_in relatives.now uid.now) }
    requires parents { IsAscending (referenced parents.now) }
    ensures { IfOk result (λ yes. IsTrue yes ↔ ((x : PlainUid) → Contains (referenced parents.now) x ↔
        (Contains (ancestors_in relatives.now uid.now) x × Contains (children_in relatives.now x) uid.now))) }
{
    let name = shared(alloc, relatives, uid)?;
    let before = parents_before(alloc, relatives, &name)?;
    if !are_in(parents, &before) {
        return Ok(false);
    }
    Ok(are_among(&before, parents))
}

/// Updates the cache after a change of the parents of `uid`, given the changed graph; returns how many lists were
/// rewritten. The cache must be right for a hierarchy that differs from `graph` at most in these parents.
///
/// # Errors
///
/// - `NoMemory`: an allocation failed, or the budget `budget` is exceeded. The cache is then still right for each graph
///   that it was right for.
pub fn follow<G: ParentsOf>(
    alloc: Global,
    graph: &G,
    relatives: &mut BTreeMap<EntityUid, Relatives>,
    cyclic: &mut BTreeSet<Shared<EntityUid>>,
    uid: &EntityUid,
    budget: &mut CacheBudget,
) -> Result<usize, NoMemory>
    requires { IsStaleContent uid.now (G.parents graph.now)
        (ancestors_in relatives.old) (children_in relatives.old) cyclic.old.keys }
    ensures ok { OnOk result (IsCacheContent (G.parents graph.now)
        (ancestors_in relatives.new) (children_in relatives.new) cyclic.new.keys) }
    ensures err { OnErr result ((before : Parents) →
        IsCacheContent before (ancestors_in relatives.old) (children_in relatives.old) cyclic.old.keys →
        IsCacheContent before (ancestors_in relatives.new) (children_in relatives.new) cyclic.new.keys) }
{
    let parents = parents_by(alloc, graph, uid)?;
    if has_none(relatives, uid, &parents) {
        return Ok(0);
    }
    budget.count_visited(ancestors_at(relatives, uid).len());
    if has_already(alloc, relatives, uid, &parents)? {
        return Ok(0);
    }
    let touched = make_with_room(alloc, graph, relatives, cyclic, uid, &parents, budget);
    release(relatives, uid);
    release_all(relatives, &parents);
    touched
}
