//! Computes the new ancestors of an entity and of its descendants when its parents change: from the cached list of its
//! only parent if it has no descendants, else by searches.
ghost use Rattle.std.specs.Prelude.{◌≡◌, ◌↔◌, ◌⊎◌, ◌∷◌, ◌++◌, [], ⊤, Contains, List, IfOk, OnOk, MatchOption};
ghost use Rattle.std.specs.Prelude.{Vec as PlainVec};
ghost use Rattle.std.specs.BTreeSet.{insert_key};
ghost use Rattle.std.specs.declared.alloc.Global.{Global as PlainGlobal};
ghost use Rattle.values.specs.declared.entity_uid.EntityUid.{EntityUid as PlainUid};
ghost use Rattle.values.specs.Names.{uid_cmp};
ghost use Rattle.ancestor_search.specs.Hierarchy.{IsAncestor};
ghost use Rattle.ancestor_closure.specs.Lists.{IsListOf, ancestors_in, children_in};
ghost use Rattle.ancestor_closure.specs.inner.OneChange.{AreListsBut, firsts};
ghost use Rattle.ancestor_closure.specs.inner.Placing.{left_of};

use crate::budget::CacheBudget;
use crate::lists::lists_of;
use crate::relatives::{Relatives, ancestors_at};
use ancestor_search::ParentsOf;
use plain::{NoMemory, Shared};
use std::alloc::Global;
use std::cmp::Ordering;
use std::collections::BTreeMap;
use values::EntityUid;

/// An entity with the list of its ancestors.
type Listed = (Shared<EntityUid>, Vec<Shared<EntityUid>>);

// Appends `one` to `all` if `one` comes before `next`. Returns whether `one` comes before `next` or equals it.
fn place(
    all: &mut Vec<Shared<EntityUid>>,
    one: &Shared<EntityUid>,
    next: &EntityUid,
) -> Result<bool, NoMemory>
    ensures { IfOk result (λ placed. (ys : List PlainUid) →
        all.new.items ++ next.now ∷ left_of placed one.now ys
        ≡ all.old.items ++ insert_key uid_cmp (next.now ∷ ys) one.now) }
{
    match (**one).cmp(next) {
        Ordering::Less => {
            all.push(one.share()?)?;
            Ok(true)
        }
        Ordering::Equal => Ok(true),
        Ordering::Greater => Ok(false),
    }
}

// Like `place`, but if `one` is placed already (`is_placed`), appends nothing and returns `true`.
fn place_once(
    all: &mut Vec<Shared<EntityUid>>,
    one: &Shared<EntityUid>,
    next: &EntityUid,
    is_placed: bool,
) -> Result<bool, NoMemory>
    ensures { IfOk result (λ placed. (ys : List PlainUid) →
        all.new.items ++ next.now ∷ left_of placed one.now ys
        ≡ all.old.items ++ left_of is_placed one.now (next.now ∷ ys)) }
{
    if is_placed {
        return Ok(true);
    }
    place(all, one, next)
}

// Appends `one` to `all` if it is not placed yet and comes before `next`, and then appends `next`. Returns whether
// `one` is then placed: appended, now or before, or equal to an appended entity.
fn add_next(
    all: &mut Vec<Shared<EntityUid>>,
    one: &Shared<EntityUid>,
    next: &Shared<EntityUid>,
    is_placed: bool,
) -> Result<bool, NoMemory>
    ensures { IfOk result (λ placed. (ys : List PlainUid) →
        all.new.items ++ left_of placed one.now ys ≡ all.old.items ++ left_of is_placed one.now (next.now ∷ ys)) }
{
    let placed = place_once(all, one, next, is_placed)?;
    all.push(next.share()?)?;
    Ok(placed)
}

// Appends `one` to `all`, unless `one` is placed.
fn add_last(
    all: &mut Vec<Shared<EntityUid>>,
    one: &Shared<EntityUid>,
    is_placed: bool,
) -> Result<(), NoMemory>
    ensures { OnOk result (all.new.items ≡ all.old.items ++ left_of is_placed one.now []) }
{
    if !is_placed {
        all.push(one.share()?)?;
    }
    Ok(())
}

// Returns a copy of an ascending list, with `one` inserted at its position unless the list contains it.
fn with_one(
    alloc: Global,
    list: &[Shared<EntityUid>],
    one: &Shared<EntityUid>,
) -> Result<Vec<Shared<EntityUid>>, NoMemory>
    ensures { IfOk result (λ all. all.items ≡ insert_key uid_cmp list.now one.now) }
{
    let mut all = Vec::with_capacity(alloc, list.len() + 1)?;
    let mut is_placed = false;
    for uid in list {
        let placed = add_next(&mut all, one, uid, is_placed)?;
        is_placed = placed;
    }
    add_last(&mut all, one, is_placed)?;
    Ok(all)
}

// Returns the only item of `after`, if that item is not `uid`, and `uid` is the only item of `entities`; else `None`.
// `after` are the new parents of `uid`, `entities` are `uid` and its descendants.
fn only_parent<'a>(
    uid: &Shared<EntityUid>,
    after: &'a [Shared<EntityUid>],
    entities: &[Shared<EntityUid>],
) -> Option<&'a Shared<EntityUid>>
    requires { Contains entities.now uid.now }
    ensures only { MatchOption result ⊤ (λ parent. after.now ≡ parent.now ∷ []) }
    ensures other { MatchOption result ⊤ (λ parent. uid.now ≡ parent.now → ⊥) }
    ensures alone { MatchOption result ⊤ (λ _. entities.now ≡ uid.now ∷ []) }
{
    if entities.len() != 1 || after.len() != 1 {
        return None;
    }
    let parent = &after[0];
    if parent.same(uid) {
        return None;
    }
    Some(parent)
}

// Returns the new ancestors of `uid`: its only parent and the parent's cached ancestors. Fails if the budget does not
// allow the list in place of the cached one.
fn list_by_parent(
    alloc: Global,
    relatives: &BTreeMap<EntityUid, Relatives>,
    uid: &EntityUid,
    parent: &Shared<EntityUid>,
    budget: &mut CacheBudget,
) -> Result<Vec<Shared<EntityUid>>, NoMemory>
    ensures { IfOk result (λ all. all.items ≡ insert_key uid_cmp (ancestors_in relatives.now parent.now) parent.now) }
{
    let list = with_one(alloc, ancestors_at(relatives, parent), parent)?;
    budget.write(ancestors_at(relatives, uid).len(), list.len())?;
    Ok(list)
}

// Returns a list with one item: the entity with its list.
fn alone(
    alloc: Global,
    uid: &Shared<EntityUid>,
    list: Vec<Shared<EntityUid>>,
) -> Result<Vec<Listed>, NoMemory>
    ensures { IfOk result (λ lists. lists.items ≡ (uid.now, list) ∷ []) }
{
    let mut lists = Vec::new(alloc);
    lists.push((uid.share()?, list))?;
    Ok(lists)
}

/// Returns `uid` and each of its descendants with its new ancestors.
///
/// `after` are the new parents of `uid`, `entities` are `uid` and its descendants. If `uid` has exactly one new parent,
/// which is another entity, and no descendant other than itself, its new ancestors are the parent and the parent's
/// cached ancestors, and nothing is searched. Otherwise each list is found by a search.
///
/// # Errors
///
/// - `NoMemory`: an allocation failed, or the budget `budget` is exceeded.
pub(crate) fn new_lists<G: ParentsOf>(
    alloc: Global,
    graph: &G,
    relatives: &BTreeMap<EntityUid, Relatives>,
    uid: &Shared<EntityUid>,
    after: &[Shared<EntityUid>],
    entities: &[Shared<EntityUid>],
    budget: &mut CacheBudget,
) -> Result<Vec<Listed>, NoMemory>
    requires known { AreListsBut uid.now (G.parents graph.now)
        (ancestors_in relatives.now) (children_in relatives.now) }
    requires parents { (x : PlainUid) → Contains after.now x ↔ Contains (G.parents graph.now uid.now) x }
    requires below { (q : PlainUid) →
        Contains entities.now q ↔ ((uid.now ≡ q) ⊎ IsAncestor (children_in relatives.now) q uid.now) }
    ensures of { IfOk result (λ lists. firsts lists.items ≡ entities.now) }
    ensures right { IfOk result (λ lists. (q : PlainUid) (list : PlainVec PlainUid PlainGlobal) →
        Contains lists.items (q, list) → IsListOf (G.parents graph.now) q list.items) }
{
    match only_parent(uid, after, entities) {
        Some(parent) => {
            let list = list_by_parent(alloc, relatives, uid, parent, budget)?;
            Ok(alone(alloc, uid, list)?)
        }
        None => lists_of(alloc, graph, relatives, entities, budget),
    }
}
