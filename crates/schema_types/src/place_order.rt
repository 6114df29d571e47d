//! An order of a graph's nodes in which each node comes after its successors, except those that lead back to it.
ghost use Rattle.std.specs.Prelude.{◌≡◌, ◌∷◌, ◌<◌, [], true, false, length, replicate, slice_set, IfOk, OnOk};
ghost use Rattle.schema_types.specs.Orders.{graph_of, successors_of as successors_at, IsSuccessorsFirst};
ghost use Rattle.schema_types.specs.inner.Ordering.{is_new, entered, IsWalk, WalksOn, KeepsSeen, one_if_seen};

use plain::NoMemory;
use std::alloc::Global;
use std::collections::VecDeque;

/// A node on the path of the search, and how many of its edges were followed. The front of a deque of steps is the end
/// of the path.
#[derive(Clone, Copy)]
pub(crate) struct Step {
    place: usize,
    followed: usize,
}

/// Returns the successors of a node; an empty slice if `place` is not a node.
fn successors_of(edges: &[Vec<usize>], place: usize) -> &[usize]
    ensures { result.now ≡ successors_at (graph_of edges.now) place }
{
    if place < edges.len() {
        &edges[place]
    } else {
        &[]
    }
}

/// Returns whether a node was not seen before, and marks it as seen. If `place` is not a node, returns `false` and
/// marks nothing.
fn mark(seen: &mut Vec<bool>, place: usize) -> bool
    ensures new { result ≡ is_new seen.old.items place }
    ensures marks { seen.new.items ≡ slice_set seen.old.items place true }
{
    if place >= seen.len() {
        return false;
    }
    let was_seen = seen[place];
    seen[place] = true;
    !was_seen
}

/// Puts a node at the end of the path and marks it, if it was not seen before.
fn enter(place: usize, path: &mut VecDeque<Step>, seen: &mut Vec<bool>) -> Result<(), NoMemory>
    ensures path { OnOk result (path.new.items ≡ entered seen.old.items place path.old.items) }
    ensures seen { OnOk result (seen.new.items ≡ slice_set seen.old.items place true) }
{
    if mark(seen, place) {
        path.push_front(Step { place, followed: 0 })?;
    }
    Ok(())
}

/// Follows the next edge of `step`, the step that was removed from the end of the path, or appends the step's node to
/// the order if no edge is left.
fn go_on(
    edges: &[Vec<usize>],
    step: Step,
    path: &mut VecDeque<Step>,
    seen: &mut Vec<bool>,
    order: &mut Vec<usize>,
) -> Result<(), NoMemory>
    ensures { OnOk result (WalksOn (graph_of edges.now) (step ∷ path.old.items) path.new.items
        seen.old.items seen.new.items order.old.items order.new.items) }
{
    let ends = successors_of(edges, step.place);
    if step.followed >= ends.len() {
        order.push(step.place)?;
        return Ok(());
    }
    let next = ends[step.followed];
    let followed = step.followed + 1;
    path.push_front(Step {
        place: step.place,
        followed,
    })?;
    enter(next, path, seen)?;
    Ok(())
}

/// Appends the nodes that are reachable from `root` and were not seen before, each after its successors except those
/// that lead back to it.
fn add_from(
    alloc: Global,
    edges: &[Vec<usize>],
    root: usize,
    seen: &mut Vec<bool>,
    order: &mut Vec<usize>,
) -> Result<(), NoMemory>
    requires inside { root < length edges.now }
    requires walks { IsWalk (graph_of edges.now) [] seen.old.items order.old.items }
    ensures walks { OnOk result (IsWalk (graph_of edges.now) [] seen.new.items order.new.items) }
    ensures keeps { OnOk result (KeepsSeen seen.old.items seen.new.items) }
    ensures reached { OnOk result (one_if_seen seen.new.items root ≡ 1) }
{
    let mut path = VecDeque::new(alloc);
    enter(root, &mut path, seen)?;
    while let Some(step) = path.pop_front() {
        go_on(edges, step, &mut path, seen, order)?;
    }
    Ok(())
}

/// Returns marks for `places` nodes, none of which was seen.
fn none_seen(alloc: Global, places: usize) -> Result<Vec<bool>, NoMemory>
    ensures { IfOk result (λ seen. seen.items ≡ replicate places false) }
{
    Ok(vec![in alloc; false; places]?)
}

/// Returns the nodes of a graph, without duplicates, each after its successors except those that lead back to it.
///
/// An edge to an index past the last node is ignored. Takes time linear in nodes and edges. The only error is
/// `NoMemory`.
pub fn successors_first(alloc: Global, edges: &[Vec<usize>]) -> Result<Vec<usize>, NoMemory>
    ensures { IfOk result (λ order. IsSuccessorsFirst (graph_of edges.now) order.items) }
{
    let mut seen = none_seen(alloc, edges.len())?;
    let mut order = Vec::new(alloc);
    for root in 0..edges.len() {
        add_from(alloc, edges, root, &mut seen, &mut order)?;
    }
    Ok(order)
}
