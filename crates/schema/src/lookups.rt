//! Look-ups in the parts of a schema. They do not allocate, and take logarithmic time. A test for an ancestor also
//! takes time linear in the number of spans that contain the ancestors' numbers; often there are few of these spans
//! (numbering.rt).
ghost use Rattle.std.specs.Prelude.{◌≡◌, option_map};
ghost use Rattle.std.specs.List.{slice_get};
ghost use Rattle.std.specs.BTreeMap.{get};
ghost use Rattle.values.specs.Names.{text_cmp, uid_cmp};
ghost use Rattle.schema.specs.LookUps.{parents_at, has_number_at, is_numbered_at, is_ancestor, action_has_ancestor};

use crate::spans::{NumberSpan, has_number};
use plain::Items;
use std::collections::BTreeMap;
use values::{EntityUid, TypeName};

/// Returns the parents of the action `uid`; `None` if `parents` has no entry for it.
pub fn parents_at<'a>(
    parents: &'a BTreeMap<EntityUid, Items<EntityUid>>,
    uid: &EntityUid,
) -> Option<&'a [EntityUid]>
    ensures { option_map (λ us. us.now) result ≡ parents_at parents.now.entries uid.now }
{
    match parents.get(uid) {
        Some(found) => Some(found.as_slice()),
        None => None,
    }
}

/// Returns whether the spans at an index contain a number.
fn has_number_at(spans: &[Items<NumberSpan>], place: usize, number: usize) -> bool
    ensures { result ≡ has_number_at (slice_get spans.now place) number }
{
    match spans.get(place) {
        Some(found) => has_number(found.as_slice(), number),
        None => false,
    }
}

/// Returns whether a type has a number, and the spans at an index contain this number.
fn is_numbered_at(
    numbers: &BTreeMap<TypeName, usize>,
    spans: &[Items<NumberSpan>],
    place: usize,
    name: &TypeName,
) -> bool
    ensures { result ≡ is_numbered_at spans.now place (get text_cmp numbers.now name.now) }
{
    match numbers.get(name) {
        Some(number) => has_number_at(spans, place, *number),
        None => false,
    }
}

/// Returns whether the type `parent` is an ancestor of `child`. `numbers` has the number of each type, and `spans` has,
/// at the index of each number, the spans of the numbers of the type's ancestors.
pub fn may_have_parent(
    numbers: &BTreeMap<TypeName, usize>,
    spans: &[Items<NumberSpan>],
    child: &TypeName,
    parent: &TypeName,
) -> bool
    ensures { result ≡ is_ancestor numbers.now.entries spans.now child.now parent.now }
{
    match numbers.get(child) {
        Some(place) => is_numbered_at(numbers, spans, *place, parent),
        None => false,
    }
}

/// Returns whether an action has a number, and the spans at an index contain this number.
fn is_action_numbered_at(
    numbers: &BTreeMap<EntityUid, usize>,
    spans: &[Items<NumberSpan>],
    place: usize,
    uid: &EntityUid,
) -> bool
    ensures { result ≡ is_numbered_at spans.now place (get uid_cmp numbers.now uid.now) }
{
    match numbers.get(uid) {
        Some(number) => has_number_at(spans, place, *number),
        None => false,
    }
}

/// Returns whether the action `above` is an ancestor of `action`. `numbers` has the number of each action, and `spans`
/// has, at the index of each number, the spans of the numbers of the action's ancestors.
pub fn action_has_ancestor(
    numbers: &BTreeMap<EntityUid, usize>,
    spans: &[Items<NumberSpan>],
    action: &EntityUid,
    above: &EntityUid,
) -> bool
    ensures { result ≡ action_has_ancestor numbers.now.entries spans.now action.now above.now }
{
    match numbers.get(action) {
        Some(place) => is_action_numbered_at(numbers, spans, *place, above),
        None => false,
    }
}
