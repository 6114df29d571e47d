//! The least cycle: a shortest one through the least cyclic entity, and the least of these, compared item by item.
//!
//! A breadth-first search goes from the least cyclic entity to its children, to their children and so on, until it
//! reaches the least cyclic entity again. It gives, for each entity on a shortest cycle through the least cyclic
//! entity, its distance: the number of edges to the least cyclic entity. A walk then starts at the least cyclic entity,
//! and goes each time to the least parent that is one edge nearer to that entity, until it is there again. Each edge is
//! visited at most three times.
ghost use Rattle.std.specs.Prelude.{◌≡◌, ◌+◌, ◌<◌, ◌^◌, ◌↔◌, ◌++◌, [], ◌∷◌, IsTrue, Some, MatchOption, IfOk, OnOk};
ghost use Rattle.std.specs.Prelude.{Contains, cond};
ghost use Rattle.std.specs.BTreeMap.{btree_map_len};
ghost use Rattle.std.specs.Option.{option_copied};
ghost use Rattle.std.specs.Ordering.{is_eq, is_lt};
ghost use Rattle.values.specs.declared.entity_uid.EntityUid.{EntityUid as PlainUid};
ghost use Rattle.values.specs.Names.{uid_cmp};
ghost use Rattle.ancestor_search.specs.Hierarchy.{referenced, IsAncestor, AreOnCycles, IsAscending};
ghost use Rattle.ancestor_search.specs.LeastCycle.{HasNoCycle, IsLeastCycle};
ghost use Rattle.ancestor_search.specs.inner.Backwards.{children_of, AreChildrenAmong, AreChildren, AddsToChildren};
ghost use Rattle.ancestor_search.specs.inner.Backwards.{dist_of, AreDistances, AreKnownUpTo, ReachesBack, Reaches};
ghost use Rattle.ancestor_search.specs.inner.Backwards.{is_one_of, is_child_of, IsLeastOf, IsWalkBack};

use crate::graph::{Graph, ParentsOf};
use crate::numbers::on_cycles;
use plain::NoMemory;
use std::alloc::Global;
use std::collections::BTreeMap;
use values::EntityUid;

// The children of each entity, by the entity.
type Children<'a> = BTreeMap<&'a EntityUid, Vec<&'a EntityUid>>;

// The distance of each reached entity: the number of edges to the entity at which the search began.
type Distances<'a> = BTreeMap<&'a EntityUid, usize>;

// Removes the children of a parent from the map, and returns them.
fn take<'a>(alloc: Global, children: &mut Children<'a>, parent: &'a EntityUid) -> Vec<&'a EntityUid>
    ensures was { referenced result.items ≡ children_of children.old parent.now }
    ensures out { (x : PlainUid) → children_of children.new x ≡
        cond (is_eq (uid_cmp parent.now x)) [] (children_of children.old x) }
{
    match children.remove(&parent) {
        Some(known) => known,
        None => Vec::new(alloc),
    }
}

// Adds a child to the children of a parent.
fn add_to<'a>(
    alloc: Global,
    children: &mut Children<'a>,
    parent: &'a EntityUid,
    child: &'a EntityUid,
) -> Result<(), NoMemory>
    ensures { OnOk result ((x : PlainUid) → children_of children.new x ≡
        cond (is_eq (uid_cmp parent.now x))
        (children_of children.old x ++ child.now ∷ []) (children_of children.old x)) }
{
    let mut known = take(alloc, children, parent);
    known.push(child)?;
    children.insert(parent, known)?;
    Ok(())
}

// Adds a child to the children of each of these parents.
fn add_child<'a>(
    alloc: Global,
    children: &mut Children<'a>,
    parents: &'a [EntityUid],
    child: &'a EntityUid,
) -> Result<(), NoMemory>
    ensures { OnOk result (AddsToChildren parents.now child.now (children_of children.old) (children_of children.new)) }
{
    for parent in parents {
        add_to(alloc, children, parent, child)?;
    }
    Ok(())
}

// Returns, for each entity, its children among `uids`.
fn children_among<'a, G: ParentsOf>(
    alloc: Global,
    graph: &'a G,
    uids: &[&'a EntityUid],
) -> Result<Children<'a>, NoMemory>
    ensures { IfOk result
        (λ children. AreChildrenAmong (referenced uids.now) (G.parents graph.now) (children_of children)) }
{
    let mut children = BTreeMap::new(alloc);
    for uid in uids {
        add_child(alloc, &mut children, graph.parents_of(uid), uid)?;
    }
    Ok(children)
}

// Returns the children of each entity.
fn children_in<'a, G: Graph>(alloc: Global, graph: &'a G) -> Result<Children<'a>, NoMemory>
    ensures { IfOk result (λ children. AreChildren (G.parents graph.now) (children_of children)) }
{
    let uids = graph.stored_uids(alloc)?;
    let children = children_among(alloc, graph, &uids)?;
    Ok(children)
}

// Sets the distance `far` for each of `uids` that has no distance yet, and appends each such entity to the level.
fn reach<'a>(
    uids: &[&'a EntityUid],
    far: usize,
    reached: &mut Distances<'a>,
    level: &mut Vec<&'a EntityUid>,
) -> Result<(), NoMemory>
    ensures { OnOk result (Reaches (is_one_of (referenced uids.now)) far (dist_of reached.old) (dist_of reached.new)
        (referenced level.old.items) (referenced level.new.items)
        (btree_map_len reached.old) (btree_map_len reached.new)) }
{
    for uid in uids {
        if !reached.contains_key(uid) {
            reached.insert(*uid, far)?;
            level.push(*uid)?;
        }
    }
    Ok(())
}

// Like `reach`, for the children of `uid`.
fn reach_children<'a>(
    children: &Children<'a>,
    uid: &'a EntityUid,
    far: usize,
    reached: &mut Distances<'a>,
    level: &mut Vec<&'a EntityUid>,
) -> Result<(), NoMemory>
    ensures { OnOk result (Reaches (is_one_of (children_of children.now uid.now)) far
        (dist_of reached.old) (dist_of reached.new) (referenced level.old.items) (referenced level.new.items)
        (btree_map_len reached.old) (btree_map_len reached.new)) }
{
    match children.get(&uid) {
        Some(found) => reach(found, far, reached, level),
        None => Ok(()),
    }
}

// Sets the distance `far` for the children of the level's entities, like `reach`. Returns the children whose distance
// was set.
fn next_level<'a>(
    alloc: Global,
    children: &Children<'a>,
    level: &[&'a EntityUid],
    far: usize,
    reached: &mut Distances<'a>,
) -> Result<Vec<&'a EntityUid>, NoMemory>
    ensures reaches { IfOk result (λ next. Reaches (is_child_of (children_of children.now) (referenced level.now)) far
        (dist_of reached.old) (dist_of reached.new) [] (referenced next.items)
        (btree_map_len reached.old) (btree_map_len reached.new)) }
    ensures small { OnOk result (btree_map_len reached.new < 2 ^ 63) }
{
    let mut next = Vec::new(alloc);
    for uid in level {
        reach_children(children, uid, far, reached, &mut next)?;
    }
    // `len` ensures the bound of `small`
    let _small = reached.len();
    Ok(next)
}

// Returns the distances to `end` of the entities that the search reaches until it reaches `end` again; `None` if it
// never does.
fn distances<'a, G: Graph>(
    alloc: Global,
    graph: &'a G,
    end: &'a EntityUid,
) -> Result<Option<Distances<'a>>, NoMemory>
    ensures { IfOk result (λ o. MatchOption o (IsAncestor (G.parents graph.now) end.now end.now → ⊥)
        (λ known. ReachesBack (G.parents graph.now) end.now (dist_of known))) }
{
    let children = children_in(alloc, graph)?;
    let mut reached = BTreeMap::new(alloc);
    let mut level = Vec::new(alloc);
    level.push(end)?;
    let mut far = 0;
    while !reached.contains_key(&end) {
        far += 1;
        level = next_level(alloc, &children, &level, far, &mut reached)?;
        if level.is_empty() {
            return Ok(None);
        }
    }
    Ok(Some(reached))
}

// Returns whether the distance of the entity is known to be `far`.
fn is_at<'a>(distances: &Distances<'a>, uid: &'a EntityUid, far: usize) -> bool
    ensures { IsTrue result ↔ (dist_of distances.now uid.now ≡ Some far) }
{
    match distances.get(&uid) {
        Some(known) => *known == far,
        None => false,
    }
}

// Returns whether the entity is less than the other; `true` if there is no other.
fn is_less(uid: &EntityUid, other: Option<&EntityUid>) -> bool
    ensures { MatchOption other.entry (IsTrue result) (λ y. result ≡ is_lt (uid_cmp uid.now y.now)) }
{
    match other {
        Some(other) => uid < other,
        None => true,
    }
}

// Returns the least of the parents at distance `far`; `None` if no parent is at that distance.
fn least_at<'a>(
    parents: &'a [EntityUid],
    distances: &Distances<'a>,
    far: usize,
) -> Option<&'a EntityUid>
    ensures { IsLeastOf parents.now (dist_of distances.now) far (option_copied result) }
{
    let mut least = None;
    for parent in parents {
        if is_at(distances, parent, far) && is_less(parent, least) {
            least = Some(parent);
        }
    }
    least
}

// Returns the least, compared item by item, of the shortest walks from `start`, a cyclic entity, back to it. `long` is
// their length. `distances` has correct distances to `start`, among them that of each entity from which a path of at
// most `long` edges leads to `start`.
fn walk<'a, G: ParentsOf>(
    alloc: Global,
    graph: &'a G,
    start: &'a EntityUid,
    distances: &Distances<'a>,
    long: usize,
) -> Result<Vec<&'a EntityUid>, NoMemory>
    requires known { AreDistances (G.parents graph.now) start.now (dist_of distances.now) }
    requires all { AreKnownUpTo (G.parents graph.now) start.now (dist_of distances.now) long }
    requires long { dist_of distances.now start.now ≡ Some long }
    ensures { IfOk result (λ found. IsWalkBack (G.parents graph.now) start.now (referenced found.items)) }
{
    let mut found = Vec::new(alloc);
    found.push(start)?;
    let mut last = start;
    for far in (1..long).rev() {
        if let Some(next) = least_at(graph.parents_of(last), distances, far) {
            found.push(next)?;
            last = next;
        }
    }
    Ok(found)
}

/// Returns the least cycle, like [`least_cycle`], given all cyclic entities in ascending order. Returns `None` at once
/// if the list is empty. The only error is `NoMemory`.
pub fn least_cycle_among<'a, G: Graph>(
    alloc: Global,
    graph: &'a G,
    cyclic: &[&'a EntityUid],
) -> Result<Option<Vec<&'a EntityUid>>, NoMemory>
    requires all { AreOnCycles (G.parents graph.now) (referenced cyclic.now) }
    requires ascending { IsAscending (referenced cyclic.now) }
    ensures { let parents = G.parents graph.now in
        IfOk result (λ o. MatchOption o (HasNoCycle parents) (λ found. IsLeastCycle parents (referenced found.items))) }
{
    let Some(start) = cyclic.first() else {
        return Ok(None);
    };
    let start: &'a EntityUid = *start;
    let Some(known) = distances(alloc, graph, start)? else {
        return Ok(None);
    };
    let Some(long) = known.get(&start) else {
        return Ok(None);
    };
    let found = walk(alloc, graph, start, &known, *long)?;
    Ok(Some(found))
}

/// Returns the least cycle, or `None` if there is no cycle.
///
/// It begins with the least cyclic entity, is a shortest cycle through that entity, and the least of these, compared
/// item by item. An edge leads from each entity to the next, and from the last to the first. Entities are ordered by
/// type, and then by id. If there is no cycle, a call costs as much as [`on_cycles`]. The only error is `NoMemory`.
pub fn least_cycle<'a, G: Graph>(
    alloc: Global,
    graph: &'a G,
) -> Result<Option<Vec<&'a EntityUid>>, NoMemory>
    ensures { let parents = G.parents graph.now in
        IfOk result (λ o. MatchOption o (HasNoCycle parents) (λ found. IsLeastCycle parents (referenced found.items))) }
{
    let cyclic = on_cycles(alloc, graph)?;
    least_cycle_among(alloc, graph, &cyclic)
}
