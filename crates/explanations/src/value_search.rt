//! The search for the part of a JSON value that is at fault under a type.
ghost use Rattle.std.specs.Prelude.{◌≡◌, IfOk, is_some, not, option_map};
ghost use Rattle.serde_json.specs.Find.{get};
ghost use Rattle.serde_json.specs.View.{view, items_view, members_view};
ghost use Rattle.schema_types.specs.CedarViews.{cedar_view, cedar_fields_view};
ghost use Rattle.entities.specs.EntityForms.{or_empty};
ghost use Rattle.explanations.specs.inner.FoundPaths.{or_else, absent_path, value_path, item_path, member_path};
ghost use Rattle.explanations.specs.inner.FoundPaths.{record_path};

use crate::steps::{Step, Trail, at_key};
use crate::whole_values::find_whole;
use entities::{Field, declared_type, element_type, record_fields};
use plain::NoMemory;
use schema_types::CedarType;
use serde_json::{Map, Value};
use std::alloc::Global;

/// Returns whether `value` has no member at `key`. An absent value counts as an empty object.
fn lacks(value: Option<&Value>, key: &str) -> bool
    ensures { result ≡ not (is_some (get key.now (or_empty (option_map (λ v. view v.now) value.entry)))) }
{
    match value {
        Some(value) => value.get(key).is_none(),
        None => true,
    }
}

/// Returns the path to the first required key of `fields` that `value` lacks, if there is one. An absent value counts
/// as an empty object.
fn find_absent<'p>(
    alloc: Global,
    fields: &'p [Field],
    value: Option<&Value>,
) -> Result<Option<Trail<'p>>, NoMemory>
    ensures { IfOk result (λ o. o ≡ absent_path (cedar_fields_view fields.entry.now)
        (or_empty (option_map (λ v. view v.now) value.entry))) }
{
    for field in fields {
        if field.2 && lacks(value, field.0.as_str()) {
            return at_key(alloc, field.0.as_str());
        }
    }
    Ok(None)
}

/// Returns the path to the part of `value` that is at fault under the type `ty`, if there is one.
#[cycle(find)]
#[tactic(auto, unfolding(crate::specs::inner::FoundPaths::value_path))]
fn find<'p>(
    alloc: Global,
    value: &'p Value,
    ty: &'p CedarType,
) -> Result<Option<Trail<'p>>, NoMemory>
    ensures { IfOk result (λ o. o ≡ value_path (cedar_view ty.entry.now) (view value.entry.now)) }
{
    match value {
        Value::Array(items) => match element_type(ty) {
            Some(element) => find_item(alloc, items, element),
            None => Ok(Some(Trail::here(alloc))),
        },
        Value::Object(members) => match record_fields(ty) {
            Some(fields) => find_in_members(alloc, members, fields, value),
            None => find_whole(alloc, value, ty),
        },
        _ => find_whole(alloc, value, ty),
    }
}

/// Returns the path to the part at fault of the first rejected item of an array, if an item is rejected.
#[cycle(find)]
fn find_item<'p>(
    alloc: Global,
    items: &'p Vec<Value>,
    ty: &'p CedarType,
) -> Result<Option<Trail<'p>>, NoMemory>
    ensures { IfOk result (λ o. o ≡ item_path (cedar_view ty.entry.now) 0 (items_view items.entry.now.items)) }
{
    for (index, item) in items.iter().enumerate() {
        match find(alloc, item, ty) {
            Ok(found) => match found {
                Some(trail) => return trail.under(Step::Index(index)),
                None => {}
            },
            Err(fault) => return Err(fault),
        }
    }
    Ok(None)
}

/// Returns the path to the part at fault of the first undeclared or rejected member of the object `value`.
///
/// `members` are the members of `value`. If no member is at fault, returns the path to the first required key that is
/// absent, if one is.
#[cycle(find)]
fn find_in_members<'p>(
    alloc: Global,
    members: &'p Map<String, Value>,
    fields: &'p [Field],
    value: &Value,
) -> Result<Option<Trail<'p>>, NoMemory>
    ensures { IfOk result
        (λ o. o ≡ or_else (member_path (cedar_fields_view fields.entry.now) (members_view members.entry.now.entries))
        (absent_path (cedar_fields_view fields.entry.now) (view value.now))) }
{
    for (key, member) in members.iter() {
        let name = key.as_str();
        let ty = match declared_type(fields, name) {
            Some(ty) => ty,
            None => return at_key(alloc, name),
        };
        match find(alloc, member, ty) {
            Ok(found) => match found {
                Some(trail) => return trail.under(Step::Key(name)),
                None => {}
            },
            Err(fault) => return Err(fault),
        }
    }
    find_absent(alloc, fields, Some(value))
}

/// Returns the path to the part of a record that is at fault, if one is. An absent record counts as an empty object. A
/// value that is not an object, or whose type is not a record, is at fault as a whole.
#[tactic(auto, unfolding(crate::specs::inner::FoundPaths::record_path, crate::specs::inner::FoundPaths::value_path))]
pub(crate) fn find_in_record<'p>(
    alloc: Global,
    found: Option<&'p Value>,
    ty: &'p CedarType,
) -> Result<Option<Trail<'p>>, NoMemory>
    ensures { IfOk result
        (λ o. o ≡ record_path (cedar_view ty.entry.now) (or_empty (option_map (λ v. view v.now) found.entry))) }
{
    match record_fields(ty) {
        Some(fields) => match found {
            Some(value) => match value.as_object() {
                Some(members) => find_in_members(alloc, members, fields, value),
                None => Ok(Some(Trail::here(alloc))),
            },
            None => find_absent(alloc, fields, None),
        },
        None => Ok(Some(Trail::here(alloc))),
    }
}
