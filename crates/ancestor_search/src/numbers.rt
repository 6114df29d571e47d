//! Entities by number: an entity's number is its index in an ascending list.
ghost use Rattle.std.specs.Prelude.{◌≡◌, IfOk, false, length, slice_index_or};
ghost use Rattle.ancestor_search.specs.Hierarchy.{AreOnCycles, IsAscending, referenced};
ghost use Rattle.ancestor_search.specs.inner.Numbering.{NumbersAmong, AreNumbered, MarkedBefore};

use crate::graph::{Graph, ParentsOf};
use crate::lists::{listed, number_of};
use crate::walk::cyclic;
use plain::NoMemory;
use std::alloc::Global;
use std::collections::BTreeSet;
use values::EntityUid;

// Returns the numbers of those parents that are in the ascending list `uids`.
fn numbers_of<'a>(
    alloc: Global,
    uids: &[&'a EntityUid],
    parents: &'a [EntityUid],
) -> Result<Vec<usize>, NoMemory>
    requires { IsAscending (referenced uids.now) }
    ensures { IfOk result (λ numbers. NumbersAmong (referenced uids.now) parents.now numbers.items) }
{
    let mut numbers = Vec::new(alloc);
    for parent in parents {
        if let Some(number) = number_of(uids, parent) {
            numbers.push(number)?;
        }
    }
    Ok(numbers)
}

// Returns, for each entity of the ascending list `uids`, the numbers of those of its parents that are in the list.
fn numbered<'a, G: ParentsOf>(
    alloc: Global,
    graph: &'a G,
    uids: &[&'a EntityUid],
) -> Result<Vec<Vec<usize>>, NoMemory>
    requires { IsAscending (referenced uids.now) }
    ensures { let us = referenced uids.now in
        IfOk result (λ edges. AreNumbered (G.parents graph.now) us (length us) edges.items) }
{
    let mut edges = Vec::new(alloc);
    for uid in uids {
        let numbers = numbers_of(alloc, uids, graph.parents_of(uid))?;
        edges.push(numbers)?;
    }
    Ok(edges)
}

// Returns whether a number is marked; `false` past the end.
fn is_marked(marks: &[bool], number: usize) -> bool
    ensures { result ≡ slice_index_or marks.now number false }
{
    if number < marks.len() {
        marks[number]
    } else {
        false
    }
}

// Returns the marked entities of the list.
fn marked<'a>(
    alloc: Global,
    uids: &[&'a EntityUid],
    marks: &[bool],
) -> Result<BTreeSet<&'a EntityUid>, NoMemory>
    ensures { let us = referenced uids.now in
        IfOk result (λ found. MarkedBefore us marks.now (length us) (referenced found.keys)) }
{
    let mut found = BTreeSet::new(alloc);
    for number in 0..uids.len() {
        let uid = uids[number];
        if is_marked(marks, number) {
            found.insert(uid)?;
        }
    }
    Ok(found)
}

// Returns all cyclic entities.
fn found_by_number<'a, G: Graph>(
    alloc: Global,
    graph: &'a G,
) -> Result<BTreeSet<&'a EntityUid>, NoMemory>
    ensures { IfOk result (λ found. AreOnCycles (G.parents graph.now) (referenced found.keys)) }
{
    let uids = graph.stored_uids(alloc)?;
    let edges = numbered(alloc, graph, &uids)?;
    let marks = cyclic(alloc, &edges)?;
    let found = marked(alloc, &uids, &marks)?;
    Ok(found)
}

/// Returns all cyclic entities of `graph`, in ascending order. The only error is `NoMemory`.
///
/// For each edge the number of the parent is looked up once. The search then visits each edge at most twice, without a
/// look-up.
pub fn on_cycles<'a, G: Graph>(alloc: Global, graph: &'a G) -> Result<Vec<&'a EntityUid>, NoMemory>
    ensures all { IfOk result (λ found. AreOnCycles (G.parents graph.now) (referenced found.items)) }
    ensures ascending { IfOk result (λ found. IsAscending (referenced found.items)) }
{
    listed(alloc, found_by_number(alloc, graph)?)
}
