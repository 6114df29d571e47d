//! Lists of ancestors: tests for their members, their computation from a graph, and their replacement in the cache.
ghost use Rattle.std.specs.Prelude.{◌≡◌, ◌↔◌, Contains, IsTrue, IfOk, Vec as PlainVec};
ghost use Rattle.std.specs.declared.alloc.Global.{Global as PlainGlobal};
ghost use Rattle.values.specs.declared.entity_uid.EntityUid.{EntityUid as PlainUid};
ghost use Rattle.values.specs.Names.{uid_cmp};
ghost use Rattle.ancestor_search.specs.Hierarchy.{IsAscending, referenced};
ghost use Rattle.ancestor_closure.specs.Lists.{IsListOf, ancestors_in, SameChildren, HasEntry};
ghost use Rattle.ancestor_closure.specs.inner.OneChange.{firsts, written};

use crate::budget::CacheBudget;
use crate::relatives::{Relatives, ancestors_at, shared, write_list};
use ancestor_search::{ParentsOf, ancestors_of, is_among};
use plain::{NoMemory, Shared};
use std::alloc::Global;
use std::cmp::Ordering;
use std::collections::BTreeMap;
use values::EntityUid;

// Compares an entity of a list with another entity.
fn compare(known: &Shared<EntityUid>, uid: &EntityUid) -> Ordering
    ensures { result ≡ uid_cmp known.now uid.now }
{
    (**known).cmp(uid)
}

/// Returns whether an ascending list contains the entity. O(log n) for a list of n entities. Does not allocate.
pub fn is_in(list: &[Shared<EntityUid>], uid: &EntityUid) -> bool
    ensures { IsAscending list.now → IsTrue result ↔ Contains list.now uid.now }
{
    list.binary_search_by(|known| compare(known, uid)).is_ok()
}

/// Returns whether an ascending list contains all of these entities.
pub(crate) fn are_in(uids: &[&EntityUid], list: &[Shared<EntityUid>]) -> bool
    requires { IsAscending list.now }
    ensures { IsTrue result ↔ ((x : PlainUid) → Contains (referenced uids.now) x → Contains list.now x) }
{
    for uid in uids {
        if !is_in(list, uid) {
            return false;
        }
    }
    true
}

/// Returns whether the ascending list `uids` contains all entities of `list`.
pub(crate) fn are_among(list: &[Shared<EntityUid>], uids: &[&EntityUid]) -> bool
    requires { IsAscending (referenced uids.now) }
    ensures { IsTrue result ↔ ((x : PlainUid) → Contains list.now x → Contains (referenced uids.now) x) }
{
    for uid in list {
        if !is_among(uids, uid) {
            return false;
        }
    }
    true
}

/// Returns references to shared uids, in the same order. The only error is `NoMemory`.
pub fn lent<'a>(
    alloc: Global,
    uids: &'a [Shared<EntityUid>],
) -> Result<Vec<&'a EntityUid>, NoMemory>
    ensures { IfOk result (λ all. referenced all.items ≡ uids.now) }
{
    let mut all = Vec::new(alloc);
    for uid in uids {
        all.push(&**uid)?;
    }
    Ok(all)
}

/// Returns these uids, each shared with the cache's entry of the entity, or copied if there is no entry. The only error
/// is `NoMemory`.
pub fn shared_all(
    alloc: Global,
    relatives: &BTreeMap<EntityUid, Relatives>,
    uids: &[&EntityUid],
) -> Result<Vec<Shared<EntityUid>>, NoMemory>
    ensures { IfOk result (λ all. all.items ≡ referenced uids.now) }
{
    let mut all = Vec::new(alloc);
    for uid in uids {
        all.push(shared(alloc, relatives, uid)?)?;
    }
    Ok(all)
}

// Returns the ancestors of an entity, by a search.
fn list_of<G: ParentsOf>(
    alloc: Global,
    graph: &G,
    relatives: &BTreeMap<EntityUid, Relatives>,
    uid: &EntityUid,
) -> Result<Vec<Shared<EntityUid>>, NoMemory>
    ensures { IfOk result (λ all. IsListOf (G.parents graph.now) uid.now all.items) }
{
    let found = ancestors_of(alloc, graph, uid)?;
    shared_all(alloc, relatives, &found)
}

/// Returns the ancestors of an entity, by a search.
///
/// # Errors
///
/// - `NoMemory`: an allocation failed, or the budget `budget` does not allow this list in place of the entity's cached
///   list.
pub fn list_within<G: ParentsOf>(
    alloc: Global,
    graph: &G,
    relatives: &BTreeMap<EntityUid, Relatives>,
    uid: &EntityUid,
    budget: &mut CacheBudget,
) -> Result<Vec<Shared<EntityUid>>, NoMemory>
    ensures { IfOk result (λ all. IsListOf (G.parents graph.now) uid.now all.items) }
{
    let list = list_of(alloc, graph, relatives, uid)?;
    budget.write(ancestors_at(relatives, uid).len(), list.len())?;
    Ok(list)
}

// Returns an entity with its ancestors, by a search, within the budget.
fn with_list<G: ParentsOf>(
    alloc: Global,
    graph: &G,
    relatives: &BTreeMap<EntityUid, Relatives>,
    uid: &Shared<EntityUid>,
    budget: &mut CacheBudget,
) -> Result<(Shared<EntityUid>, Vec<Shared<EntityUid>>), NoMemory>
    ensures { IfOk result (λ e. (e.0 ≡ uid.now) × IsListOf (G.parents graph.now) uid.now e.1.items) }
{
    let name = uid.share()?;
    let list = list_within(alloc, graph, relatives, uid, budget)?;
    Ok((name, list))
}

/// Returns each of these entities with its ancestors, by a search for each, within the budget.
pub(crate) fn lists_of<G: ParentsOf>(
    alloc: Global,
    graph: &G,
    relatives: &BTreeMap<EntityUid, Relatives>,
    entities: &[Shared<EntityUid>],
    budget: &mut CacheBudget,
) -> Result<Vec<(Shared<EntityUid>, Vec<Shared<EntityUid>>)>, NoMemory>
    ensures of { IfOk result (λ lists. firsts lists.items ≡ entities.now) }
    ensures right { IfOk result (λ lists. (q : PlainUid) (list : PlainVec PlainUid PlainGlobal) →
        Contains lists.items (q, list) → IsListOf (G.parents graph.now) q list.items) }
{
    let mut lists = Vec::new(alloc);
    for entity in entities {
        lists.push(with_list(alloc, graph, relatives, entity, budget)?)?;
    }
    Ok(lists)
}

/// Replaces the cached ancestors of each of these entities, which have entries, by the new list. Does not allocate.
pub(crate) fn write_all(
    relatives: &mut BTreeMap<EntityUid, Relatives>,
    mut lists: Vec<(Shared<EntityUid>, Vec<Shared<EntityUid>>)>,
)
    requires { (q : PlainUid) → Contains (firsts lists.items) q → HasEntry relatives.old q }
    ensures lists { (q : PlainUid) →
        ancestors_in relatives.new q ≡ written lists.items q (ancestors_in relatives.old q) }
    ensures children { SameChildren relatives.old relatives.new }
{
    while let Some((entity, list)) = lists.pop() {
        write_list(relatives, &entity, list);
    }
}
