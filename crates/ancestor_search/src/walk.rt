//! A search for the cyclic numbers of a graph of numbers. A number is cyclic if a path of edges leads from it back to
//! itself. The search finds strongly connected components, without recursion.
//!
//! The search follows one path of edges. Numbers that were found to reach one another form a group. The groups of the
//! path are consecutive in one list of members and in one list of edges not yet visited; a list of bounds has the
//! positions at which each group begins. An edge back to an earlier group merges that group with all later groups: the
//! bounds of the later groups are dropped, and nothing is moved. The last group is done when it has no edges to visit.
//! (Gabow, "Path-based depth-first search for strong and biconnected components", 2000.)
ghost use Rattle.std.specs.Prelude.{◌≡◌, ◌+◌, ◌<◌, ◌≤◌, [], ◌∷◌, ◌++◌, true, length, IsTrue, ◌↔◌, ◌⊎◌, IfOk, OnOk};
ghost use Rattle.std.specs.Prelude.{MatchOption, slice_set};
ghost use Rattle.ancestor_search.specs.inner.Walking.{bound_at, edges_of, mark_of, MarksCycles, JoinsDownTo, IsSeen};
ghost use Rattle.ancestor_search.specs.inner.Walking.{KeepsSeen, HasOpen, FindsOpen, Ends};
ghost use Rattle.ancestor_search.specs.inner.UnderWay.{IsUnderWay, IsWaiting, effort_of};

use plain::NoMemory;
use std::alloc::Global;

// The positions at which a group begins in the list of members and in the list of edges not yet visited.
#[derive(Clone, Copy, Drop)]
struct Bound {
    members: usize,
    pending: usize,
}

// A search in progress.
#[derive(Drop)]
struct Walk {
    // The mark of each number: 0 if it was not seen, `usize::MAX` if its group is done, else its index among the
    // members, counted from 1.
    place: Vec<usize>,
    // Whether each number was found to be cyclic.
    found: Vec<bool>,
    // The members of the groups of the path.
    members: Vec<usize>,
    // The ends of those edges of the groups' members that are not yet visited.
    pending: Vec<usize>,
    // The bounds at which the groups begin.
    bounds: Vec<Bound>,
}

// Returns the numbers to which the edges of a number lead; none past the end.
fn edges_at(edges: &[Vec<usize>], number: usize) -> &[usize]
    ensures { result.now ≡ edges_of edges.now number }
{
    if number < edges.len() {
        &edges[number]
    } else {
        &[]
    }
}

// Returns the mark of a number; past the end, the mark of a number that is done.
fn mark_or_done(place: &[usize], number: usize) -> usize
    ensures { result ≡ mark_of place.now number }
{
    if number < place.len() {
        place[number]
    } else {
        usize::MAX
    }
}

// Sets the mark of a number. No-op past the end.
fn note(place: &mut Vec<usize>, number: usize, mark: usize)
    ensures { place.new.items ≡ slice_set place.old.items number mark }
{
    if number < place.len() {
        place[number] = mark;
    }
}

// Marks a number as found to be cyclic. No-op past the end.
fn mark_cyclic(found: &mut Vec<bool>, number: usize)
    ensures { found.new.items ≡ slice_set found.old.items number true }
{
    if number < found.len() {
        found[number] = true;
    }
}

// Removes an edge of the last group, and returns the number to which it leads; `None` if the group has no edge left.
// The group's edges begin at the index `start` of `pending`.
fn next_edge(pending: &mut Vec<usize>, start: usize) -> Option<usize>
    ensures { MatchOption result
        ((pending.new.items ≡ pending.old.items) × (length pending.old.items ≤ start))
        (λ y. (pending.old.items ≡ pending.new.items ++ y ∷ []) × (start ≤ length pending.new.items)) }
{
    if pending.len() <= start {
        return None;
    }
    pending.pop()
}

// Begins a group of one number at the end of the path.
fn enter(edges: &[Vec<usize>], walk: &mut Walk, number: usize) -> Result<(), NoMemory>
    ensures place { OnOk result
        (walk.new.place.items ≡ slice_set walk.old.place.items number (length walk.old.members.items + 1)) }
    ensures members { OnOk result (walk.new.members.items ≡ walk.old.members.items ++ number ∷ []) }
    ensures pending { OnOk result (walk.new.pending.items ≡ walk.old.pending.items ++ edges_of edges.now number) }
    ensures bounds { OnOk result
        (walk.new.bounds.items ≡ walk.old.bounds.items ++ bound_at walk.old.members.items walk.old.pending.items ∷ []) }
    ensures found { OnOk result (walk.new.found.items ≡ walk.old.found.items) }
{
    let bound = Bound {
        members: walk.members.len(),
        pending: walk.pending.len(),
    };
    walk.bounds.push(bound)?;
    walk.members.push(number)?;
    walk.pending.extend_from_slice(edges_at(edges, number))?;
    note(&mut walk.place, number, walk.members.len());
    Ok(())
}

// Merges the last group, whose bound is `last`, with those before it, down to the group with the member at index
// `place`, counted from 1. Returns the bound of the merged group, which is not in `bounds`.
fn joined(bounds: &mut Vec<Bound>, last: Bound, place: usize) -> Bound
    requires { 0 < place }
    ensures joins { JoinsDownTo place bounds.old.items last bounds.new.items result }
    ensures down { bounds.new.items ≡ [] ⊎ (result.members < place) }
    ensures fewer { length bounds.new.items ≤ length bounds.old.items }
{
    let mut last = last;
    while place <= last.members {
        match bounds.pop() {
            Some(lower) => last = lower,
            None => return last,
        }
    }
    last
}

// Visits an edge of the last group to `number`. `last` is the bound of that group; the caller has removed it, and this
// function restores it or the bound of the merged group.
fn look_at(
    edges: &[Vec<usize>],
    walk: &mut Walk,
    last: Bound,
    number: usize,
) -> Result<(), NoMemory>
    requires { IsWaiting (edges_of edges.now) walk.old last number }
    ensures walks { OnOk result (IsUnderWay (edges_of edges.now) walk.new) }
    ensures kept { OnOk result (KeepsSeen walk.old.place.items walk.new.place.items) }
    ensures less { OnOk result (effort_of walk.new ≤ effort_of walk.old + 1) }
{
    let place = mark_or_done(&walk.place, number);
    if place == 0 {
        walk.bounds.push(last)?;
        enter(edges, walk, number)?;
        return Ok(());
    }
    if place == usize::MAX {
        walk.bounds.push(last)?;
        return Ok(());
    }
    let last = joined(&mut walk.bounds, last, place);
    walk.bounds.push(last)?;
    Ok(())
}

// Returns whether at least one of the numbers is not done.
fn leads_in(numbers: &[usize], place: &[usize]) -> bool
    ensures { IsTrue result ↔ HasOpen numbers.now place.now }
{
    for number in numbers {
        if mark_or_done(place, *number) != usize::MAX {
            return true;
        }
    }
    false
}

// Marks as cyclic each member from which an edge leads to a number that is not done. Once the last group has no edge
// left to visit, its edges lead only to done numbers and to its own members, which reach one another. So a member is
// cyclic if and only if it has such an edge.
fn find(edges: &[Vec<usize>], members: &[usize], place: &[usize], found: &mut Vec<bool>)
    ensures { FindsOpen (edges_of edges.now) place.now members.now found.old.items found.new.items }
{
    for number in members {
        if leads_in(edges_at(edges, *number), place) {
            mark_cyclic(found, *number);
        }
    }
}

// Marks the members as done.
fn end(members: &[usize], place: &mut Vec<usize>)
    ensures { Ends members.now place.old.items place.new.items }
{
    for number in members {
        note(place, *number, usize::MAX);
    }
}

// Completes the last group, which has these members: marks the cyclic ones, and then marks all as done.
fn leave(edges: &[Vec<usize>], members: &[usize], place: &mut Vec<usize>, found: &mut Vec<bool>)
    ensures finds { FindsOpen (edges_of edges.now) place.old.items members.now found.old.items found.new.items }
    ensures ends { Ends members.now place.old.items place.new.items }
{
    find(edges, members, place, found);
    end(members, place);
}

// Searches everything that is reachable from a number, unless the number was seen.
fn explore(edges: &[Vec<usize>], walk: &mut Walk, root: usize) -> Result<(), NoMemory>
    requires walks { IsUnderWay (edges_of edges.now) walk.old }
    requires none { walk.old.bounds.items ≡ [] }
    ensures walks { OnOk result (IsUnderWay (edges_of edges.now) walk.new) }
    ensures none { OnOk result (walk.new.bounds.items ≡ []) }
    ensures kept { OnOk result (KeepsSeen walk.old.place.items walk.new.place.items) }
    ensures reached { OnOk result (IsSeen walk.new.place.items root) }
{
    if mark_or_done(&walk.place, root) != 0 {
        return Ok(());
    }
    enter(edges, walk, root)?;
    while let Some(last) = walk.bounds.pop() {
        match next_edge(&mut walk.pending, last.pending) {
            Some(number) => look_at(edges, walk, last, number)?,
            None => {
                let (_, members) = walk.members.split_at(last.members);
                leave(edges, members, &mut walk.place, &mut walk.found);
                walk.members.truncate(last.members);
            }
        }
    }
    Ok(())
}

/// Returns for each number whether it is cyclic. Each edge is visited at most twice.
pub(crate) fn cyclic(alloc: Global, edges: &[Vec<usize>]) -> Result<Vec<bool>, NoMemory>
    ensures { IfOk result (λ found. MarksCycles (edges_of edges.now) found.items) }
{
    let count = edges.len();
    let mut walk = Walk {
        place: Vec::from_elem(alloc, 0, count)?,
        found: Vec::from_elem(alloc, false, count)?,
        members: Vec::new(alloc),
        pending: Vec::new(alloc),
        bounds: Vec::new(alloc),
    };
    for root in 0..count {
        explore(edges, &mut walk, root)?;
    }
    Ok(walk.found)
}
