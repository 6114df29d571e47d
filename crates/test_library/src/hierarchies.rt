//! Tests of hierarchies: queries, changes, cycles, and failed allocations. Each test applies to any type of hierarchy.
//!
//! A test is a string of rows, separated by `/`. A row is a change or, with a colon, an expectation:
//!
//! - `CHILD in PARENT ..` sets the parents of an entity; a word alone deletes its entity; `new` empties the hierarchy.
//! - `ID: ANCESTORS | CYCLIC | CYCLE` expects the ancestors of the entity, the cyclic entities, and the least cycle.
//! - `ID OTHER ..:` expects ` above` if the entity is an ancestor of the first of the others, and ` cycle` if it would
//!   be cyclic with the others as parents.
//! - `: CYCLE` expects the least cycle.
//! - `touched:COUNT` expects that the last change rewrote COUNT lists of ancestors, if the hierarchy has an ancestor
//!   cache.
//!
//! In tests with failed allocations `/` separates steps: `CHANGE; ROW; ROW ..`, a change and the expectations after it.
use crate::shared::{ended, finished, holds, uid_of};
use ancestor_closure::{Ancestry, Closed, Hierarchy, Searched};
use plain::{NoMemory, both};
use std::alloc::Global;
use std::process::Abort;
use values::EntityUid;

// A hierarchy under test.
trait TestedHierarchy: Hierarchy + Drop {
    // Creates a hierarchy without edges.
    fn begun(alloc: Global) -> Self;

    // Returns whether the last change rewrote this many lists of ancestors; true if there is no cache.
    fn has_touched(&self, count: usize) -> bool;
}

impl TestedHierarchy for Searched {
    fn begun(alloc: Global) -> Searched {
        Searched::new(alloc)
    }

    fn has_touched(&self, _count: usize) -> bool {
        true
    }
}

impl TestedHierarchy for Closed {
    fn begun(alloc: Global) -> Closed {
        Closed::new(alloc)
    }

    fn has_touched(&self, count: usize) -> bool {
        self.touched() == count
    }
}

// Returns the type and the id of an entity: `u` and `v` are of the type User, and so is an id before a prime; any other
// id is of the type Group.
fn named(word: &str) -> (&str, &str) {
    match word.split_once('\'') {
        Some((id, _)) => ("User", id),
        None if word == "u" || word == "v" => ("User", word),
        None => ("Group", word),
    }
}

fn entity(alloc: Global, word: &str) -> Result<EntityUid, NoMemory> {
    let (type_name, id) = named(word);
    uid_of(alloc, type_name, id)
}

fn push_entities(alloc: Global, list: &mut Vec<EntityUid>, ids: &str) -> Result<(), NoMemory> {
    for id in ids.split_whitespace() {
        list.push(entity(alloc, id)?)?;
    }
    Ok(())
}

// Returns the entities of these ids, which are separated by blanks.
fn entities(alloc: Global, ids: &str) -> Result<Vec<EntityUid>, NoMemory> {
    let mut list = Vec::new(alloc);
    let done = push_entities(alloc, &mut list, ids);
    finished(list, done)
}

// Gives an entity these parents.
fn put<H: Hierarchy>(
    alloc: Global,
    hierarchy: &mut H,
    child: &str,
    parents: &str,
) -> Result<(), NoMemory> {
    let (parents, child) = both(entities(alloc, parents), entity(alloc, child))?;
    hierarchy.set_parents(child, parents)
}

fn take_away<H: Hierarchy>(alloc: Global, hierarchy: &mut H, id: &str) -> Result<(), NoMemory> {
    let uid = entity(alloc, id)?;
    let done = hierarchy.remove(&uid);
    ended(uid, done)
}

// Makes a change other than `new`.
fn apply<H: Hierarchy>(alloc: Global, hierarchy: &mut H, change: &str) -> Result<(), NoMemory> {
    match change.split_once(" in") {
        Some((child, parents)) => put(alloc, hierarchy, child, parents),
        None => take_away(alloc, hierarchy, change),
    }
}

fn is_named(uid: &EntityUid, word: &str) -> bool {
    let (type_name, id) = named(word);
    uid.type_name.as_str() == type_name && uid.id.as_str() == id
}

// Returns whether these are the entities of these ids, in this order.
fn are(found: &[&EntityUid], ids: &str) -> bool {
    let mut ids = ids.split_whitespace();
    for uid in found {
        if !is_named(uid, ids.next().unwrap_or("")) {
            return false;
        }
    }
    ids.next().is_none()
}

// Returns whether a cycle has the entities of these ids, in this order; without a cycle, whether there are no ids.
fn is_walk(found: &Option<Vec<&EntityUid>>, ids: &str) -> bool {
    match found {
        Some(found) => are(found.as_slice(), ids),
        None => ids.is_empty(),
    }
}

// The ancestors of an entity; the cyclic entities, and the least cycle.
type Told<'a> = (
    Vec<&'a EntityUid>,
    (Vec<&'a EntityUid>, Option<Vec<&'a EntityUid>>),
);

// Returns the ancestors of an entity, the cyclic entities, and the least cycle.
fn told<'a, H: Ancestry>(hierarchy: &'a H, uid: &EntityUid) -> Result<Told<'a>, NoMemory> {
    both(
        hierarchy.ancestors(uid),
        both(hierarchy.cyclic(), hierarchy.least_cycle()),
    )
}

// Returns whether `above` are the found ancestors, and `cycles` the found cyclic entities, a bar, and the least
// cycle.
fn is_as_expected(told: &Told<'_>, above: &str, cycles: &str) -> bool {
    let Some((cyclic, walk)) = cycles.split_once('|') else {
        return false;
    };
    are(told.0.as_slice(), above) && are(told.1.0.as_slice(), cyclic) && is_walk(&told.1.1, walk)
}

// Returns whether `above` are the ancestors of an entity, and `cycles` the cyclic entities, a bar, and the least cycle.
fn has_expected_ancestry<H: Ancestry>(
    hierarchy: &H,
    uid: &EntityUid,
    above: &str,
    cycles: &str,
) -> Result<bool, NoMemory> {
    let told = told(hierarchy, uid)?;
    let truth = is_as_expected(&told, above, cycles);
    Ok(ended(told, truth))
}

// Returns whether the least cycle has the expected ids.
fn has_least_cycle<H: Ancestry>(hierarchy: &H, expected: &str) -> Result<bool, NoMemory> {
    let walk = hierarchy.least_cycle()?;
    let truth = is_walk(&walk, expected);
    Ok(ended(walk, truth))
}

// Returns whether an entity is an ancestor of the first of some others; false without others.
fn is_above_the_first<H: Ancestry>(
    hierarchy: &H,
    uid: &EntityUid,
    others: &[EntityUid],
) -> Result<bool, NoMemory> {
    match others.first() {
        Some(first) => hierarchy.is_ancestor(uid, first),
        None => Ok(false),
    }
}

// Returns whether an entity is an ancestor of the first of some others, and whether it would be cyclic with them as
// parents.
fn answered<H: Hierarchy>(
    hierarchy: &H,
    uid: &EntityUid,
    others: &[EntityUid],
) -> Result<(bool, bool), NoMemory> {
    both(
        is_above_the_first(hierarchy, uid, others),
        hierarchy.would_cycle(uid, others),
    )
}

// Returns the expectation that a row has for an answer of [`answered`].
fn words_of(answer: (bool, bool)) -> &'static str {
    match answer {
        (true, true) => " above cycle",
        (true, false) => " above",
        (false, true) => " cycle",
        (false, false) => "",
    }
}

// Returns whether an expectation on an entity holds: with a bar, on its ancestors and the cycles; without a bar, on how
// the entity is related to the others.
fn meets_expectation_of<H: Hierarchy>(
    hierarchy: &H,
    uid: &EntityUid,
    others: &[EntityUid],
    expected: &str,
) -> Result<bool, NoMemory> {
    match expected.split_once('|') {
        Some((above, cycles)) => has_expected_ancestry(hierarchy, uid, above, cycles),
        None => Ok(words_of(answered(hierarchy, uid, others)?) == expected),
    }
}

// Returns whether an expectation holds; without an entity it is on the least cycle.
fn meets_expectation_of_all<H: Hierarchy>(
    hierarchy: &H,
    asked: &[EntityUid],
    expected: &str,
) -> Result<bool, NoMemory> {
    match asked.split_first() {
        Some((uid, others)) => meets_expectation_of(hierarchy, uid, others, expected),
        None => has_least_cycle(hierarchy, expected),
    }
}

// Returns whether an expectation holds: `asked` is what precedes the colon of its row, `expected` what follows it.
fn meets_expectation<H: TestedHierarchy>(
    alloc: Global,
    hierarchy: &H,
    asked: &str,
    expected: &str,
) -> Result<bool, NoMemory> {
    if asked == "touched" {
        return Ok(hierarchy.has_touched(expected.parse::<usize>().unwrap_or(usize::MAX)));
    }
    let asked = entities(alloc, asked)?;
    let truth = meets_expectation_of_all(hierarchy, &asked, expected);
    ended(asked, truth)
}

// Returns whether the expectation of a row holds; after a failed allocation tries once more.
fn is_row<H: TestedHierarchy>(alloc: Global, hierarchy: &H, row: &str) -> Result<bool, NoMemory> {
    let (asked, expected) = row.split_once(':').unwrap_or((row, ""));
    match meets_expectation(alloc, hierarchy, asked, expected) {
        Ok(truth) => Ok(truth),
        Err(_) => meets_expectation(alloc, hierarchy, asked, expected),
    }
}

// Fails the test unless the expectation of a row holds.
fn row_holds<H: TestedHierarchy>(
    rt: &impl Abort,
    alloc: Global,
    hierarchy: &H,
    row: &str,
) -> Result<(), NoMemory> {
    holds(rt, is_row(alloc, hierarchy, row)?, row);
    Ok(())
}

// Makes a change.
fn change<H: TestedHierarchy>(
    alloc: Global,
    hierarchy: &mut H,
    change: &str,
) -> Result<(), NoMemory> {
    if change == "new" {
        *hierarchy = H::begun(alloc);
        return Ok(());
    }
    apply(alloc, hierarchy, change)
}

// Makes the change of a row, or fails the test unless its expectation holds.
fn row<H: TestedHierarchy>(
    rt: &impl Abort,
    alloc: Global,
    hierarchy: &mut H,
    row: &str,
) -> Result<(), NoMemory> {
    if row.contains(':') {
        return row_holds(rt, alloc, hierarchy, row);
    }
    change(alloc, hierarchy, row)
}

// Executes rows, one after another.
fn rows_hold<H: TestedHierarchy>(
    rt: &impl Abort,
    alloc: Global,
    hierarchy: &mut H,
    rows: &str,
) -> Result<(), NoMemory> {
    for one in rows.split('/') {
        row(rt, alloc, hierarchy, one)?;
    }
    Ok(())
}

// Executes rows from an empty hierarchy.
fn table<H: TestedHierarchy>(rt: &impl Abort, alloc: Global, rows: &str) -> Result<(), NoMemory> {
    let mut hierarchy = H::begun(alloc);
    rows_hold(rt, alloc, &mut hierarchy, rows)
}

// Fails the test unless each of these expectations holds.
fn all_hold<H: TestedHierarchy>(
    rt: &impl Abort,
    alloc: Global,
    hierarchy: &H,
    rows: &str,
) -> Result<(), NoMemory> {
    for row in rows.split("; ") {
        row_holds(rt, alloc, hierarchy, row)?;
    }
    Ok(())
}

// Makes a failed change again. Fails the test unless `before`, the expectations of the step before, still hold.
fn change_again<H: TestedHierarchy>(
    rt: &impl Abort,
    alloc: Global,
    hierarchy: &mut H,
    change: &str,
    before: &str,
) -> Result<(), NoMemory> {
    all_hold(rt, alloc, hierarchy, before)?;
    apply(alloc, hierarchy, change)
}

// Makes a change; if it fails, makes it again ([`change_again`]).
fn change_at_last<H: TestedHierarchy>(
    rt: &impl Abort,
    alloc: Global,
    hierarchy: &mut H,
    change: &str,
    before: &str,
) -> Result<(), NoMemory> {
    match apply(alloc, hierarchy, change) {
        Ok(()) => Ok(()),
        Err(_) => change_again(rt, alloc, hierarchy, change, before),
    }
}

// Makes the change of a step. Fails the test unless the step's expectations then hold. Returns these expectations.
fn step<'a, H: TestedHierarchy>(
    rt: &impl Abort,
    alloc: Global,
    hierarchy: &mut H,
    step: &'a str,
    before: &str,
) -> Result<&'a str, NoMemory> {
    let (change, after) = step.split_once("; ").unwrap_or((step, ""));
    change_at_last(rt, alloc, hierarchy, change, before)?;
    all_hold(rt, alloc, hierarchy, after)?;
    Ok(after)
}

// Makes steps, each from the end of the one before. If a change fails, the expectations of the step before must still
// hold, and a second try must succeed.
fn steps_hold<H: TestedHierarchy>(
    rt: &impl Abort,
    alloc: Global,
    hierarchy: &mut H,
    steps: &str,
) -> Result<(), NoMemory> {
    let mut before = "u: | |; g1: | |";
    for one in steps.split('/') {
        before = step(rt, alloc, hierarchy, one, before)?;
    }
    Ok(())
}

// Makes steps from an empty hierarchy.
fn steps<H: TestedHierarchy>(rt: &impl Abort, alloc: Global, steps: &str) -> Result<(), NoMemory> {
    let mut hierarchy = H::begun(alloc);
    steps_hold(rt, alloc, &mut hierarchy, steps)
}

// These rows test, in this order: a cycle that is closed and broken; two cycles that share an entity, with entities
// that lead to or from a cycle and are not cyclic; parents that repeat, or are not stored; from the least cyclic
// entity, a shortest cycle, and of these the least, item by item; queries on u, a child of g1, and g1, a child of g2;
// entities with one id and two types, which are different, also if one of the two is deleted or added.
const ROWS: &str = "\
    u in g1/u: g1 | |/\
    g1 in g2/u: g1 g2 | |/\
    g2 in g3/u: g1 g2 g3 | |/\
    v in g3/v: g3 | |/\
    g3 in u/u: g1 g2 g3 u | g1 g2 g3 u | g1 g2 g3 u/\
    g2/u: g1 g2 | |/\
    w/g3: g1 g2 u | |/\
    u in/g3: u | |/\
    new/\
    a in a/a: a | a | a/\
    a in b c/a: b c | |/\
    b in a/a: a b c | a b | a b/\
    c in a top/a: a b c top | a b c | a b/\
    below in b/below: a b c top | a b c | a b/\
    top in over/below: a b c over top | a b c | a b/\
    b in c/below: a b c over top | a b c | a c/\
    a in b/below: a b c over top | a b c | a b c/\
    c/below: b c | |/\
    new/\
    a in c b c b/a: b c | |/\
    x/b: | |/new/\
    a in b/b in a/: a b/new/\
    a in c/c in b/b in a/: a c b/new/\
    a in b c/b in a/c in a/: a b/new/\
    a in b/b in c/c in a d/d in c/: a b c/new/\
    x in x/: x/new/\
    a in b/b in c/:/new/\
    a in b/b in c/c in a/d in d/: a b c/new/\
    b in c a/c in b/0 in b/: b c/new/\
    a in c b/b in e/c in d/d in a/e in a/: a b e/new/\
    a in b/b in d c/c in a/d in a/: a b c/new/\
    a in b c/b in d/d in e/e in a/c in f/f in a/: a c f/new/\
    u in a/a in u/v in u/: a u/new/\
    a in b/b in a/b/:/new/\
    u in g1/g1 in g2/\
    g2 u: above cycle/\
    g1 u: above cycle/\
    u g2:/\
    g2 w:/\
    u u: cycle/\
    u :/\
    g2 w u: cycle/\
    new/\
    a' in a/a': a | |/a: | |/\
    a in b/a': a b | |/a: b | |/\
    a a': above cycle/\
    a' a:/\
    a' b:/\
    a a: cycle/\
    b' a':/\
    a in a' b/a': a b a' | a a' | a a'/\
    a'/a: b a' | |/a': | |/\
    a' in b'/a: b a' b' | |/a': b' | |/\
    a/a': b' | |/a: | |/\
    b' in b/b in a/a': a b b' | |/\
    a in a'/a': a b a' b' | a b a' b' | a a' b' b/\
    b' in/a: a' b' | |/b: a a' b' | |/\
    new/\
    b in a'/a' in b/: b a'/new/\
    a in b' c/b' in a/c in a/: a c/\
    c in c'/: a b'/\
    b' in b/:/\
    a in b/b in a'/a' in a/: a b a'/\
    a in a' b/: a a'";

// These steps test a path that grows, is cut by a deletion, and is closed to a cycle by a parent that is not the first;
// an entity that is its own parent; the cycles broken in turn. After each change come the ancestors of entities that
// the change affects.
const SURVIVED: &str = "\
    u in g1; u: g1 | |; v: | |; g1: | |; touched:1/\
    g1 in g2; u: g1 g2 | |; g1: g2 | |; g2: | |; touched:2/\
    v in g2; u: g1 g2 | |; v: g2 | |; g2: | |; touched:1/\
    g2 in g3; u: g1 g2 g3 | |; v: g2 g3 | |; g1: g2 g3 | |; g2: g3 | |; touched:4/\
    g2; u: g1 g2 | |; v: g2 | |; g1: g2 | |; g2: | |; g2 u: above cycle; touched:4/\
    g2 in g3 u; \
    u: g1 g2 g3 u | g1 g2 u | g1 g2 u; v: g1 g2 g3 u | g1 g2 u | g1 g2 u; \
    g1: g1 g2 g3 u | g1 g2 u | g1 g2 u; g2: g1 g2 g3 u | g1 g2 u | g1 g2 u; \
    g3: | g1 g2 u | g1 g2 u; u u: above cycle; g3 v: above cycle; v g3:; touched:4/\
    g3 in g3; \
    u: g1 g2 g3 u | g1 g2 g3 u | g1 g2 u; v: g1 g2 g3 u | g1 g2 g3 u | g1 g2 u; \
    g1: g1 g2 g3 u | g1 g2 g3 u | g1 g2 u; g3: g3 | g1 g2 g3 u | g1 g2 u; touched:5/\
    u; u: | g3 | g3; v: g2 g3 u | g3 | g3; g1: g2 g3 u | g3 | g3; g2: g3 u | g3 | g3; g3: g3 | g3 | g3; touched:4/\
    g3 in; u: | |; v: g2 g3 u | |; g1: g2 g3 u | |; g2: g3 u | |; g3: | |; touched:4/\
    v; v: | |; g1: g2 g3 u | |; g2: g3 u | |; touched:1";

// These rows test how many lists of ancestors a change rewrites: that of its entity, and that of each of the entity's
// descendants.
const TOUCHED: &str = "\
    u in g1/g1 in g2/g2 in g3/v in g3/touched:1/g2 in/touched:3/\
    new/u in g1/g1 in g2/g2 in g3/v in g3/g2/touched:3/\
    new/u in g1/g1 in g2/g2 in g3/v in g3/g3 in u/touched:5/\
    w in u/touched:1/\
    new/a' in b/a in c/touched:1/b in c/touched:2/a/touched:1/a'/touched:1";

#[test]
fn searched(rt: HostRuntime) -> Result<(), NoMemory> {
    table::<Searched>(&rt, rt.alloc(), ROWS)
}

#[test]
fn searched_survives_a_refused_allocation(rt: HostRuntime) -> Result<(), NoMemory> {
    steps::<Searched>(&rt, rt.alloc(), SURVIVED)
}

#[test]
fn kept(rt: HostRuntime) -> Result<(), NoMemory> {
    table::<Closed>(&rt, rt.alloc(), ROWS)
}

#[test]
fn kept_survives_a_refused_allocation(rt: HostRuntime) -> Result<(), NoMemory> {
    steps::<Closed>(&rt, rt.alloc(), SURVIVED)
}

#[test]
fn changes_touch_what_is_below(rt: HostRuntime) -> Result<(), NoMemory> {
    table::<Closed>(&rt, rt.alloc(), TOUCHED)
}
