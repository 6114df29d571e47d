//! The operators, on values.
ghost use Rattle.std.specs.Prelude.{◌≡◌, ◌⊎◌, ◌↔◌, IsTrue, Contains, IfOk, MatchResult, Ok, Err};
ghost use Rattle.std.specs.List.{list_all, list_any};
ghost use Rattle.values.specs.Sets.{has_member};
ghost use Rattle.ancestor_search.specs.Hierarchy.{IsAscending, referenced};
ghost use Rattle.evaluator.specs.Outcomes.{entity_uid_in};
ghost use Rattle.evaluator.specs.inner.Computing.{decided_entities, demanded, Answers, number_or_fault, apply_unary};
ghost use Rattle.evaluator.specs.inner.Computing.{sets};
ghost use Rattle.evaluator.specs.inner.Computing.{apply_binary, is_in, in_members, in_value};

use crate::borrowed_or_owned::BorrowedOrOwned;
use crate::fault::EvalFault;
use crate::lookup::Lookup;
use crate::operands::{boolean_of, entity_of, long_of, longs_of, set_of, text_of};
use ancestor_search::is_among;
use grammar_core::{Binary, Unary};
use plain::NoMemory;
use values::{BorrowedKind, EntityUid, Kind, Set, Value, sets_hold_their_members};

/// Returns the result of an operator on a value.
pub(crate) fn unary(operator: &Unary, given: &BorrowedOrOwned<'_>) -> Result<Value, EvalFault>
    ensures { result ≡ apply_unary operator.now given.now }
{
    match operator {
        Unary::Not => Ok(Value::boolean(!boolean_of(given)?)),
        Unary::Negate => number(long_of(given)?.checked_neg()),
        Unary::Like(pattern) => Ok(Value::boolean(pattern.matches(text_of(given)?.as_str()))),
        Unary::Is(name) => Ok(Value::boolean(
            entity_of(given)?.type_name.as_str() == name.as_str(),
        )),
    }
}

/// Returns the result of checked arithmetic as a value; `ArithBoundsError` for `None`.
fn number(found: Option<i64>) -> Result<Value, EvalFault>
    ensures { result ≡ number_or_fault found }
{
    match found {
        Some(number) => Ok(Value::long(number)),
        None => Err(EvalFault::ArithBoundsError),
    }
}

/// Returns whether `a` is `b` or a descendant of `b`.
fn is_in<L: Lookup>(store: &L, a: &EntityUid, b: &EntityUid) -> Result<bool, NoMemory>
    ensures { IfOk result
        (λ r. r ≡ is_in (decided_entities (L.stored store.now) (L.ancestor_test store.now)) a.now b.now) }
{
    if a.cmp(b).is_eq() {
        return Ok(true);
    }
    store.is_ancestor(b, a)
}

/// Returns a member of a set as an entity; `TypeError` if the member is of another kind.
fn member_entity(member: &Value) -> Result<&EntityUid, EvalFault>
    ensures { MatchResult result (λ u. demanded (entity_uid_in member.now) ≡ Ok u.now)
        (λ e. demanded (entity_uid_in member.now) ≡ Err e) }
{
    match member.kind() {
        Kind::Entity(uid) => Ok(uid),
        _ => Err(EvalFault::TypeError),
    }
}

/// Returns whether `a` is `b`, or `b` is among `ancestors`, the ancestors of `a` in ascending order.
fn is_within(a: &EntityUid, ancestors: &[&EntityUid], b: &EntityUid) -> bool
    requires { IsAscending (referenced ancestors.now) }
    ensures { IsTrue result ↔ ((a.now ≡ b.now) ⊎ Contains (referenced ancestors.now) b.now) }
{
    a.cmp(b).is_eq() || is_among(ancestors, b)
}

/// Returns whether `a` is one of `members` or a descendant of one; `TypeError` if some member is not an entity. Looks
/// up the ancestors of `a` once.
fn in_members<L: Lookup>(store: &L, a: &EntityUid, members: &[Value]) -> Result<bool, EvalFault>
    ensures { Answers result (in_members (decided_entities (L.stored store.now) (L.ancestor_test store.now)) a.now
        members.now) }
{
    let ancestors = store.ancestors(a)?;
    let mut found = false;
    for member in members {
        let b = member_entity(member)?;
        if !found {
            found = is_within(a, &ancestors, b);
        }
    }
    Ok(found)
}

/// Returns the result of `a in b`, where `b` must be an entity or a set of entities.
#[tactic(auto, using(crate::proofs::Conversions::conversions))]
fn in_value<L: Lookup>(
    store: &L,
    a: &EntityUid,
    b: &BorrowedOrOwned<'_>,
) -> Result<Value, EvalFault>
    ensures { Answers result
        (in_value (decided_entities (L.stored store.now) (L.ancestor_test store.now)) a.now b.now) }
{
    match b.kind() {
        BorrowedKind::Entity(uid) => Ok(Value::boolean(is_in(store, a, uid)?)),
        BorrowedKind::Set(members) => Ok(Value::boolean(in_members(store, a, members.members())?)),
        _ => Err(EvalFault::TypeError),
    }
}

/// Returns whether a value is a member of a set. O(log n) comparisons for a set of n members. Does not allocate.
fn is_member(members: &Set, given: &BorrowedOrOwned<'_>) -> bool
    ensures { result ≡ has_member members.now given.now }
{
    sets_hold_their_members();
    members
        .members()
        .binary_search_by(|member| given.compared_by(member))
        .is_ok()
}

/// Returns whether each member of the set `b` is a member of the set `a`; `TypeError` if `a` or `b` is not a set.
fn contains_all(a: &BorrowedOrOwned<'_>, b: &BorrowedOrOwned<'_>) -> Result<Value, EvalFault>
    ensures { result ≡ sets (λ x y. list_all (has_member x) y) a.now b.now }
{
    Ok(Value::boolean(set_of(a)?.contains_all(set_of(b)?)))
}

/// Returns whether some member of the set `b` is a member of the set `a`; `TypeError` if `a` or `b` is not a set.
fn contains_any(a: &BorrowedOrOwned<'_>, b: &BorrowedOrOwned<'_>) -> Result<Value, EvalFault>
    ensures { result ≡ sets (λ x y. list_any (has_member x) y) a.now b.now }
{
    Ok(Value::boolean(set_of(a)?.contains_any(set_of(b)?)))
}

/// Returns the result of an operator on two values.
pub(crate) fn binary<L: Lookup>(
    store: &L,
    operator: Binary,
    a: &BorrowedOrOwned<'_>,
    b: &BorrowedOrOwned<'_>,
) -> Result<Value, EvalFault>
    ensures { Answers result
        (apply_binary (decided_entities (L.stored store.now) (L.ancestor_test store.now)) operator a.now b.now) }
{
    match operator {
        Binary::Equal => Ok(Value::boolean(a.compare(b).is_eq())),
        Binary::In => in_value(store, entity_of(a)?, b),
        Binary::Less => {
            let (first, second) = longs_of(a, b)?;
            Ok(Value::boolean(first < second))
        }
        Binary::LessOrEqual => {
            let (first, second) = longs_of(a, b)?;
            Ok(Value::boolean(first <= second))
        }
        Binary::Add => {
            let (first, second) = longs_of(a, b)?;
            number(first.checked_add(second))
        }
        Binary::Subtract => {
            let (first, second) = longs_of(a, b)?;
            number(first.checked_sub(second))
        }
        Binary::Multiply => {
            let (first, second) = longs_of(a, b)?;
            number(first.checked_mul(second))
        }
        Binary::Contains => Ok(Value::boolean(is_member(set_of(a)?, b))),
        Binary::ContainsAll => contains_all(a, b),
        Binary::ContainsAny => contains_any(a, b),
    }
}
