//! Adds and removes the children of entities in the cache, and finds descendants by a search over children.
ghost use Rattle.std.specs.Prelude.{◌≡◌, ◌↔◌, ◌⊎◌, ◌^◌, ◌<◌, [], ◌∷◌, Contains, IfOk, OnOk};
ghost use Rattle.std.specs.BTreeSet.{btree_set_len};
ghost use Rattle.values.specs.declared.entity_uid.EntityUid.{EntityUid as PlainUid};
ghost use Rattle.ancestor_search.specs.Hierarchy.{IsAncestor, AreAllAncestorsOf, IsAscending, referenced};
ghost use Rattle.ancestor_search.specs.Search.{AddsUnseen};
ghost use Rattle.ancestor_closure.specs.Lists.{children_in, SameLists, HasEntry, KeepEntries, AddsChild};
ghost use Rattle.ancestor_closure.specs.inner.OneChange.{TakesChild};

use crate::lists::{is_in, shared_all};
use crate::relatives::{Relatives, release};
use ancestor_search::listed;
use plain::{NoMemory, Shared};
use std::alloc::Global;
use std::collections::{BTreeMap, BTreeSet};
use values::EntityUid;

// Adds each child in `found` to `seen` and to `work`, unless the child is in `seen`.
fn add_members<'a>(
    found: &'a BTreeSet<Shared<EntityUid>>,
    seen: &mut BTreeSet<&'a EntityUid>,
    work: &mut Vec<&'a EntityUid>,
) -> Result<(), NoMemory>
    ensures adds { OnOk result
        (AddsUnseen found.now.keys (referenced seen.old.keys) (referenced work.old.items)
        (referenced seen.new.keys) (referenced work.new.items)) }
    ensures small { OnOk result (btree_set_len seen.new < 2 ^ 63) }
{
    for child in found.iter() {
        let child: &EntityUid = child;
        if seen.insert(child)? {
            work.push(child)?;
        }
    }
    // `len` ensures the bound of `small`
    let _small = seen.len();
    Ok(())
}

// Adds each child of `uid` to `seen` and to `work`, unless the child is in `seen`.
fn add_children<'a>(
    relatives: &'a BTreeMap<EntityUid, Relatives>,
    uid: &EntityUid,
    seen: &mut BTreeSet<&'a EntityUid>,
    work: &mut Vec<&'a EntityUid>,
) -> Result<(), NoMemory>
    ensures adds { OnOk result (AddsUnseen (children_in relatives.now uid.now)
        (referenced seen.old.keys) (referenced work.old.items) (referenced seen.new.keys) (referenced work.new.items)) }
    ensures small { OnOk result (btree_set_len seen.new < 2 ^ 63) }
{
    match relatives.get(uid) {
        Some(known) => add_members(&known.children, seen, work),
        None => {
            // `len` ensures the bound of `small`
            let _small = seen.len();
            Ok(())
        }
    }
}

// Returns the descendants of an entity.
fn below<'a>(
    alloc: Global,
    relatives: &'a BTreeMap<EntityUid, Relatives>,
    uid: &EntityUid,
) -> Result<BTreeSet<&'a EntityUid>, NoMemory>
    ensures { IfOk result (λ found. AreAllAncestorsOf (children_in relatives.now) uid.now (referenced found.keys)) }
{
    let mut seen = BTreeSet::new(alloc);
    let mut work = Vec::new(alloc);
    add_children(relatives, uid, &mut seen, &mut work)?;
    while let Some(next) = work.pop() {
        add_children(relatives, next, &mut seen, &mut work)?;
    }
    Ok(seen)
}

/// Returns an entity and its descendants.
pub(crate) fn entity_and_descendants<'a>(
    alloc: Global,
    relatives: &'a BTreeMap<EntityUid, Relatives>,
    uid: &'a EntityUid,
) -> Result<Vec<Shared<EntityUid>>, NoMemory>
    ensures { IfOk result (λ found. (q : PlainUid) →
        Contains found.items q ↔ ((uid.now ≡ q) ⊎ IsAncestor (children_in relatives.now) q uid.now)) }
{
    let mut found = below(alloc, relatives, uid)?;
    found.insert(uid)?;
    let found = listed(alloc, found)?;
    shared_all(alloc, relatives, &found)
}

// Adds a child to a parent, which has an entry.
fn add_child(
    relatives: &mut BTreeMap<EntityUid, Relatives>,
    parent: &EntityUid,
    child: Shared<EntityUid>,
) -> Result<(), NoMemory>
    requires { HasEntry relatives.old parent.now }
    ensures lists { SameLists relatives.old relatives.new }
    ensures stay { KeepEntries relatives.old relatives.new }
    ensures adds { AddsChild (parent.now ∷ []) child (children_in relatives.old) (children_in relatives.new) }
    ensures added { OnOk result (Contains (children_in relatives.new parent.now) child) }
{
    match relatives.get_mut(parent) {
        Some(known) => {
            known.children.insert(child)?;
            Ok(())
        }
        None => Ok(()),
    }
}

/// Adds a child to each of its parents, which have entries. The only error is `NoMemory`; after it some of the parents
/// may have the child.
pub fn add_to_all(
    relatives: &mut BTreeMap<EntityUid, Relatives>,
    parents: &[Shared<EntityUid>],
    child: &Shared<EntityUid>,
) -> Result<(), NoMemory>
    requires { (x : PlainUid) → Contains parents.now x → HasEntry relatives.old x }
    ensures lists { SameLists relatives.old relatives.new }
    ensures stay { KeepEntries relatives.old relatives.new }
    ensures adds { AddsChild parents.now child.now (children_in relatives.old) (children_in relatives.new) }
    ensures added { OnOk result
        ((x : PlainUid) → Contains parents.now x → Contains (children_in relatives.new x) child.now) }
{
    for parent in parents {
        add_child(relatives, parent, child.share()?)?;
    }
    Ok(())
}

// Removes a child from a parent.
fn take_child(
    relatives: &mut BTreeMap<EntityUid, Relatives>,
    parent: &EntityUid,
    child: &Shared<EntityUid>,
)
    ensures lists { SameLists relatives.old relatives.new }
    ensures takes { TakesChild (parent.now ∷ []) [] child.now (children_in relatives.old) (children_in relatives.new) }
{
    match relatives.get_mut(parent) {
        Some(known) => {
            known.children.remove(child);
        }
        None => {}
    }
}

// Removes a child from a parent, and the parent's entry if it is then empty. No-op if the parent is one of `parents`.
fn take_child_unless(
    relatives: &mut BTreeMap<EntityUid, Relatives>,
    parents: &[Shared<EntityUid>],
    parent: &EntityUid,
    child: &Shared<EntityUid>,
)
    requires { IsAscending parents.now }
    ensures lists { SameLists relatives.old relatives.new }
    ensures takes { TakesChild (parent.now ∷ []) parents.now child.now
        (children_in relatives.old) (children_in relatives.new) }
{
    if is_in(parents, parent) {
        return;
    }
    take_child(relatives, parent, child);
    release(relatives, parent);
}

/// Removes a child from each entity of `before` that is not one of `parents`, an ascending list, and the entries that
/// are then empty. Does not allocate.
pub(crate) fn take_from_all(
    relatives: &mut BTreeMap<EntityUid, Relatives>,
    before: &[Shared<EntityUid>],
    parents: &[Shared<EntityUid>],
    child: &Shared<EntityUid>,
)
    requires { IsAscending parents.now }
    ensures lists { SameLists relatives.old relatives.new }
    ensures takes { TakesChild before.now parents.now child.now
        (children_in relatives.old) (children_in relatives.new) }
{
    for parent in before {
        take_child_unless(relatives, parents, parent, child);
    }
}
