//! The search for the part of an entity's JSON that does not have the form of an entity.
ghost use Rattle.std.specs.Prelude.{◌≡◌, ◌∷◌, [], IfOk, Some, codes, option_map};
ghost use Rattle.serde_json.specs.View.{view, items_view};
ghost use Rattle.explanations.specs.EntityPaths.{is_uid, to_parent, parent_demands, parents_demands, form_demands};
ghost use Rattle.explanations.specs.EntityPaths.{first_unmet, uid_at};
ghost use Rattle.explanations.specs.inner.FoundPaths.{or_unmet};

use crate::steps::{Step, Trail, at_key, under_key};
use entities::{drop_uid, is_absent_or_object, read_uid};
use plain::NoMemory;
use serde_json::Value;
use std::alloc::Global;
use values::EntityUid;

/// Returns the path to the parent at an index. Always `Some`.
pub(crate) fn at_parent<'p>(alloc: Global, index: usize) -> Result<Option<Trail<'p>>, NoMemory>
    ensures { IfOk result (λ o. o ≡ Some (to_parent index)) }
{
    under_key("parents", Trail::here(alloc).under(Step::Index(index)))
}

/// Returns the uid that a value describes, if it is present and describes one.
pub(crate) fn uid_at(alloc: Global, found: Option<&Value>) -> Result<Option<EntityUid>, NoMemory>
    ensures { IfOk result (λ o. o ≡ uid_at (option_map (λ v. view v.now) found.entry)) }
{
    match found {
        Some(value) => read_uid(alloc, value),
        None => Ok(None),
    }
}

/// Returns whether a value is present and a uid.
fn is_uid(alloc: Global, found: Option<&Value>) -> Result<bool, NoMemory>
    ensures { IfOk result (λ yes. yes ≡ is_uid (option_map (λ v. view v.now) found.entry)) }
{
    match uid_at(alloc, found) {
        Ok(uid) => {
            let is_uid = uid.is_some();
            drop_uid(uid);
            Ok(is_uid)
        }
        Err(fault) => Err(fault),
    }
}

/// Returns the path to the first of the parents that is not a uid, if there is one.
fn find_nameless<'p>(alloc: Global, parents: &[Value]) -> Result<Option<Trail<'p>>, NoMemory>
    ensures { IfOk result (λ o. o ≡ first_unmet (parent_demands 0 (items_view parents.now))) }
{
    for (index, parent) in parents.iter().enumerate() {
        match is_uid(alloc, Some(parent)) {
            Ok(named) => {
                if !named {
                    return at_parent(alloc, index);
                }
            }
            Err(fault) => return Err(fault),
        }
    }
    Ok(None)
}

/// Returns the path to the first part of the parents that does not have the form of parents, if there is one.
fn find_in_parents<'p>(alloc: Global, found: Option<&Value>) -> Result<Option<Trail<'p>>, NoMemory>
    ensures { IfOk result
        (λ o. o ≡ first_unmet (parents_demands (option_map (λ v. view v.now) found.entry))) }
{
    match found {
        None => Ok(None),
        Some(value) => match value.as_array() {
            Some(parents) => find_nameless(alloc, parents),
            None => at_key(alloc, "parents"),
        },
    }
}

/// Returns `key` if the part at `key` does not have its form, else `later`.
pub(crate) fn or_unmet<'k>(met: bool, key: &'k str, later: Option<&'k str>) -> Option<&'k str>
    ensures { option_map (λ k. k.now) result ≡ or_unmet met key.now (option_map (λ k. k.now) later.entry) }
{
    if met { later } else { Some(key) }
}

/// Returns the path to the first part of an entity that is missing or malformed, if there is one.
pub(crate) fn find_in_form<'p>(alloc: Global, value: &Value) -> Result<Option<Trail<'p>>, NoMemory>
    ensures { IfOk result (λ o. o ≡ first_unmet (form_demands (view value.now))) }
{
    if !value.is_object() {
        return Ok(Some(Trail::here(alloc)));
    }
    let from_tags = or_unmet(is_absent_or_object(value.get("tags")), "tags", None);
    let from_attrs = or_unmet(is_absent_or_object(value.get("attrs")), "attrs", from_tags);
    match is_uid(alloc, value.get("uid")) {
        Ok(named) => match or_unmet(named, "uid", from_attrs) {
            Some(key) => at_key(alloc, key),
            None => find_in_parents(alloc, value.get("parents")),
        },
        Err(fault) => Err(fault),
    }
}
