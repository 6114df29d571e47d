//! Tests of the index of policies by their scopes: the candidates of a request, and failed changes.
//!
//! A test is a string of rows, separated by `/`. A row is a change or, with a colon, an expectation:
//!
//! - `POLICY == ID` and `POLICY in ID` add a policy that constrains the principal by `==` and `in`.
//!   `POLICY on ID` and `POLICY within ID` add one that constrains the resource by `==` and `in`.
//!   `POLICY any` adds one that constrains neither. Each replaces the policy of that name, if there is one.
//! - `POLICY gone` removes a policy; `CHILD below PARENT` sets the parent of an entity.
//! - `PRINCIPAL: POLICY ..` expects the candidates of a request of this principal on Doc x.
//!
//! In the test of failed allocations `/` separates steps: `CHANGE; ROW; ROW ..`, a change and the expectations after
//! it. Each run of tests/faults/refused_tests.py makes one allocation fail.
use crate::shared::{ended, holds, uid_of};
use ancestor_closure::{Closed, Hierarchy};
use plain::{NoMemory, Shared, both};
use policy_grammar::{ActionScope, Effect, EntityScope, Expr, Literal, Policy, Scope};
use scope_index::ScopeIndex;
use std::alloc::Global;
use std::process::Abort;
use std::str::SplitWhitespace;
use values::{EntityUid, Record, Request};

// An index under test, with the edges of its hierarchy.
#[derive(Drop)]
struct TestedIndex {
    index: ScopeIndex,
    hierarchy: Closed,
}

// Returns an index without policies, and a hierarchy without edges.
fn begun(alloc: Global) -> TestedIndex {
    TestedIndex {
        index: ScopeIndex::new(alloc),
        hierarchy: Closed::new(alloc),
    }
}

// Returns the entity of an id: Group g, Doc x, y or z, or a User.
fn entity(alloc: Global, id: &str) -> Result<EntityUid, NoMemory> {
    match id {
        "g" => uid_of(alloc, "Group", id),
        "x" | "y" | "z" => uid_of(alloc, "Doc", id),
        _ => uid_of(alloc, "User", id),
    }
}

// Returns the scope with these constraints, for every action.
fn of_parts(principal: EntityScope, resource: EntityScope) -> Scope {
    Scope {
        principal,
        action: ActionScope::Any,
        resource,
    }
}

// Returns the scope of a row.
fn scope(alloc: Global, how: &str, id: &str) -> Result<Scope, NoMemory> {
    if how == "any" {
        return Ok(of_parts(EntityScope::Any, EntityScope::Any));
    }
    let uid = entity(alloc, id)?;
    Ok(match how {
        "==" => of_parts(EntityScope::Equal(uid), EntityScope::Any),
        "in" => of_parts(EntityScope::In(uid), EntityScope::Any),
        "on" => of_parts(EntityScope::Any, EntityScope::Equal(uid)),
        _ => of_parts(EntityScope::Any, EntityScope::In(uid)),
    })
}

// Returns a request of this principal on Doc x.
fn request(alloc: Global, principal: &str) -> Result<Request, NoMemory> {
    let (principal, (action, resource)) = both(
        entity(alloc, principal),
        both(uid_of(alloc, "Action", "view"), entity(alloc, "x")),
    )?;
    Ok(Request {
        principal,
        action,
        resource,
        context: Record::new(alloc),
    })
}

// Returns a policy of this scope, without a condition.
fn policy_of(alloc: Global, scope: Scope) -> Result<Policy, NoMemory> {
    let asks_nothing = Expr::Literal(Literal::Boolean(true));
    let (scope, condition) = both(Shared::new(alloc, scope), Shared::new(alloc, asks_nothing))?;
    Ok(Policy {
        effect: Effect::Permit,
        scope,
        condition,
    })
}

// Returns the policy of a row, given the second word of the row (`how`) and the third (`id`).
fn policy(alloc: Global, how: &str, id: &str) -> Result<Policy, NoMemory> {
    policy_of(alloc, scope(alloc, how, id)?)
}

// Returns a policy; after a failed allocation tries once more, so that an error of `add` is one of the index itself.
fn policy_at_last(alloc: Global, how: &str, id: &str) -> Result<Policy, NoMemory> {
    match policy(alloc, how, id) {
        Ok(policy) => Ok(policy),
        Err(_) => policy(alloc, how, id),
    }
}

// Adds the policy of a row to the index.
fn add(
    alloc: Global,
    index: &mut ScopeIndex,
    name: &str,
    how: &str,
    id: &str,
) -> Result<(), NoMemory> {
    let policy = policy_at_last(alloc, how, id)?;
    let done = index.add(name, &policy);
    ended(policy, done)
}

// Sets the parent of an entity.
fn put_below(
    alloc: Global,
    hierarchy: &mut Closed,
    child: &str,
    parent: &str,
) -> Result<(), NoMemory> {
    let (child, parent) = both(entity(alloc, child), entity(alloc, parent))?;
    hierarchy.set_parents(child, vec![in alloc; parent]?)
}

// Makes the change of a row.
fn change(alloc: Global, tried: &mut TestedIndex, row: &str) -> Result<(), NoMemory> {
    let mut words = row.split_whitespace();
    let name = words.next().unwrap_or("");
    let how = words.next().unwrap_or("");
    let id = words.next().unwrap_or("");
    match how {
        "gone" => {
            tried.index.remove(name);
            Ok(())
        }
        "below" => put_below(alloc, &mut tried.hierarchy, name, id),
        _ => add(alloc, &mut tried.index, name, how, id),
    }
}

// Returns the next id other than `but`.
fn next_but<'a>(ids: &mut SplitWhitespace<'a>, but: &str) -> Option<&'a str> {
    let next = ids.next();
    if next == Some(but) {
        return ids.next();
    }
    next
}

// Returns whether the policies found have these ids without `but`, in this order.
fn are(found: &[(&str, &Policy)], ids: &str, but: &str) -> bool {
    let mut ids = ids.split_whitespace();
    for offer in found {
        if next_but(&mut ids, but) != Some(offer.0) {
            return false;
        }
    }
    next_but(&mut ids, but).is_none()
}

// Returns whether the candidates of a request are those of these ids, without the policy `but`.
fn finds(tried: &TestedIndex, request: &Request, ids: &str, but: &str) -> Result<bool, NoMemory> {
    let found = tried.index.candidates(request, &tried.hierarchy)?;
    let truth = are(found.as_slice(), ids, but);
    Ok(ended(found, truth))
}

// Returns whether the expectation of a row holds, where the policy `but` is left out of the expected ones.
fn is_offered(alloc: Global, tried: &TestedIndex, row: &str, but: &str) -> Result<bool, NoMemory> {
    let (principal, ids) = row.split_once(':').unwrap_or((row, ""));
    let request = request(alloc, principal)?;
    let truth = finds(tried, &request, ids, but);
    ended(request, truth)
}

// Like [`is_offered`]; after a failed allocation tries once more.
fn is_row(alloc: Global, tried: &TestedIndex, row: &str, but: &str) -> Result<bool, NoMemory> {
    match is_offered(alloc, tried, row, but) {
        Ok(truth) => Ok(truth),
        Err(_) => is_offered(alloc, tried, row, but),
    }
}

// Fails the test unless the expectation of a row holds, without the policy `but`.
fn row_holds(
    rt: &impl Abort,
    alloc: Global,
    tried: &TestedIndex,
    row: &str,
    but: &str,
) -> Result<(), NoMemory> {
    holds(rt, is_row(alloc, tried, row, but)?, row);
    Ok(())
}

// Makes the change of a row, or fails the test unless its expectation holds.
fn row(rt: &impl Abort, alloc: Global, tried: &mut TestedIndex, row: &str) -> Result<(), NoMemory> {
    if row.contains(':') {
        return row_holds(rt, alloc, tried, row, "");
    }
    change(alloc, tried, row)
}

// Executes rows.
fn rows_hold(
    rt: &impl Abort,
    alloc: Global,
    tried: &mut TestedIndex,
    rows: &str,
) -> Result<(), NoMemory> {
    for one in rows.split('/') {
        row(rt, alloc, tried, one)?;
    }
    Ok(())
}

// Fails the test unless each of these expectations holds, without the policy `but`.
fn all_hold(
    rt: &impl Abort,
    alloc: Global,
    tried: &TestedIndex,
    rows: &str,
    but: &str,
) -> Result<(), NoMemory> {
    for one in rows.split("; ") {
        row_holds(rt, alloc, tried, one, but)?;
    }
    Ok(())
}

// Returns the policy that a failed change removes from the index: the one that was to be added; for a change of the
// hierarchy an empty string.
fn lost_by(change: &str) -> &str {
    if change.contains(" below ") {
        return "";
    }
    match change.split_once(' ') {
        Some((name, _)) => name,
        None => "",
    }
}

// Makes a failed change again. Fails the test unless the expectations of the step before (`before`) still hold, apart
// from the removed policy.
fn change_again(
    rt: &impl Abort,
    alloc: Global,
    tried: &mut TestedIndex,
    refused: &str,
    before: &str,
) -> Result<(), NoMemory> {
    all_hold(rt, alloc, tried, before, lost_by(refused))?;
    change(alloc, tried, refused)
}

// Makes a change; if it fails, makes it again ([`change_again`]).
fn change_at_last(
    rt: &impl Abort,
    alloc: Global,
    tried: &mut TestedIndex,
    asked: &str,
    before: &str,
) -> Result<(), NoMemory> {
    match change(alloc, tried, asked) {
        Ok(()) => Ok(()),
        Err(_) => change_again(rt, alloc, tried, asked, before),
    }
}

// Makes the change of a step. Fails the test unless the step's expectations then hold. Returns these expectations.
fn step<'a>(
    rt: &impl Abort,
    alloc: Global,
    tried: &mut TestedIndex,
    step: &'a str,
    before: &str,
) -> Result<&'a str, NoMemory> {
    let (change, after) = step.split_once("; ").unwrap_or((step, ""));
    change_at_last(rt, alloc, tried, change, before)?;
    all_hold(rt, alloc, tried, after, "")?;
    Ok(after)
}

// Makes steps, each from the end of the one before.
fn steps_hold(
    rt: &impl Abort,
    alloc: Global,
    tried: &mut TestedIndex,
    steps: &str,
) -> Result<(), NoMemory> {
    let mut before = "u:; v:";
    for one in steps.split('/') {
        before = step(rt, alloc, tried, one, before)?;
    }
    Ok(())
}

// Executes rows from an empty index.
fn table(rt: &impl Abort, alloc: Global, rows: &str) -> Result<(), NoMemory> {
    let mut tried = begun(alloc);
    rows_hold(rt, alloc, &mut tried, rows)
}

// These rows test, in this order: a principal that is not stored, then is a child of a group; a policy whose constraint
// is removed, and a policy that is removed; policies that constrain the resource, which are candidates if they name Doc
// x or its ancestor; a new constraint, and a cyclic entity, for which each policy is a candidate once.
const ROWS: &str = "\
    a:/\
    a == a/b == b/c any/d in g/e in a/\
    a: a c e/b: b c/\
    a below g/a: a c d e/b: b c/\
    a any/b: a b c/a: a c d e/\
    b gone/b: a c/b gone/b: a c/\
    a gone/a: c d e/\
    f on x/h on y/i within y/b: c f/\
    x below y/b: c f h i/\
    c on z/b: f h i/\
    f == b/a: d e h i/b: f h i/\
    g below a/a: d e h i";

// Each step begins at the end of the one before. If a change fails, the candidates must be those of the step before,
// without the policy that was to be added, and a second try must succeed. The steps test a new policy, and one whose
// key changes; changes of the hierarchy; removed policies; then more policies than a node of a map holds.
const SURVIVED: &str = "\
    c any; u: c; v: c/\
    a == u; u: a c; v: c/\
    b == v; u: a c; v: b c/\
    e == u; u: a c e; v: b c/\
    d in g; u: a c e; v: b c/\
    u below g; u: a c d e; v: b c/\
    a any; u: a c d e; v: a b c/\
    e in g; u: a c d e; v: a b c/\
    f on x; u: a c d e f; v: a b c f/\
    f == v; u: a c d e; v: a b c f/\
    i within y; u: a c d e; v: a b c f/\
    x below y; u: a c d e i; v: a b c f i/\
    a gone; u: c d e i; v: b c f i/\
    i gone; u: c d e; v: b c f/\
    0 == u; u: 0 c d e; v: b c f/\
    1 == u; u: 0 1 c d e/\
    2 == u; u: 0 1 2 c d e/\
    3 == u; u: 0 1 2 3 c d e/\
    4 == u; u: 0 1 2 3 4 c d e/\
    5 == u; u: 0 1 2 3 4 5 c d e/\
    6 == u; u: 0 1 2 3 4 5 6 c d e/\
    7 == u; u: 0 1 2 3 4 5 6 7 c d e/\
    8 == u; u: 0 1 2 3 4 5 6 7 8 c d e/\
    9 == u; u: 0 1 2 3 4 5 6 7 8 9 c d e; v: b c f/\
    A == u; u: 0 1 2 3 4 5 6 7 8 9 A c d e; v: b c f/\
    B == u; u: 0 1 2 3 4 5 6 7 8 9 A B c d e/\
    C == u; u: 0 1 2 3 4 5 6 7 8 9 A B C c d e/\
    D == u; u: 0 1 2 3 4 5 6 7 8 9 A B C D c d e/\
    E == u; u: 0 1 2 3 4 5 6 7 8 9 A B C D E c d e; v: b c f/\
    F == u; u: 0 1 2 3 4 5 6 7 8 9 A B C D E F c d e; v: b c f";

#[test]
fn policies_are_offered(rt: HostRuntime) -> Result<(), NoMemory> {
    table(&rt, rt.alloc(), ROWS)
}

#[test]
fn index_survives_a_refused_allocation(rt: HostRuntime) -> Result<(), NoMemory> {
    let mut tried = begun(rt.alloc());
    steps_hold(&rt, rt.alloc(), &mut tried, SURVIVED)
}
