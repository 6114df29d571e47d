//! Parsing of the actions of a schema file.
ghost use Rattle.std.specs.Prelude.{◌≡◌, option_map};
ghost use Rattle.serde_json.specs.View.{view, items_view};
ghost use Rattle.json_words.specs.ReadsAs.{ReadsAs};
ghost use Rattle.schema_reading.specs.inner.StatedViews.{applies_to_view, action_view};
ghost use Rattle.schema_reading.specs.FileForm.{parent_of, parents_of, parents_in, applies_to_of, applies_to_in};
ghost use Rattle.schema_reading.specs.FileForm.{is_empty_in, action_of};
ghost use Rattle.schema_types.specs.declared.fault.SchemaFault.TheVariants as SchemaFault;

use crate::reading_names::{read_names_at, read_optional_name};
use crate::reading_types::read_optional_type;
use crate::stated::{StatedAction, StatedAppliesTo, StatedParent};
use json_words::only_keys;
use plain::{Items, Text};
use schema_types::{SchemaFault, optional, required_text};
use serde_json::Value;
use std::alloc::Global;

/// Returns the parent that a value in the `memberOf` of an action describes.
#[tactic(auto, unfolding(crate::specs::FileForm::parent_of))]
fn read_parent(alloc: Global, value: &Value) -> Result<StatedParent, SchemaFault>
    ensures { ReadsAs SchemaFault.NoMemory (λ p. p) result (parent_of (view value.now)) }
{
    if !only_keys(value, &["id", "type", "annotations"]) {
        return Err(SchemaFault::BadShape);
    }
    let id = required_text(value, "id")?;
    let type_name = read_optional_name(alloc, optional(value, "type"))?;
    let id = Text::from_str(alloc, id)?;
    Ok(StatedParent { type_name, id })
}

/// Returns the parents of an action that the values describe.
fn read_parents(alloc: Global, values: &[Value]) -> Result<Items<StatedParent>, SchemaFault>
    ensures { ReadsAs SchemaFault.NoMemory (λ ps. ps) result (parents_of (items_view values.now)) }
{
    let mut parents = Items::new(alloc);
    for value in values {
        let parent = read_parent(alloc, value)?;
        parents.push(parent)?;
    }
    Ok(parents)
}

/// Returns the parents of an action that an array describes; none if `found` is `None`, and `BadShape` (21) if it is
/// not an array.
fn read_optional_parents(
    alloc: Global,
    found: Option<&Value>,
) -> Result<Items<StatedParent>, SchemaFault>
    ensures { ReadsAs SchemaFault.NoMemory (λ ps. ps) result (parents_in (option_map (λ v. view v.now) found.entry)) }
{
    match found {
        None => Ok(Items::new(alloc)),
        Some(value) => match value.as_array() {
            Some(list) => read_parents(alloc, list),
            None => Err(SchemaFault::BadShape),
        },
    }
}

/// Returns what an action applies to, as a value describes it.
#[tactic(auto, unfolding(crate::specs::FileForm::applies_to_of))]
fn read_use(alloc: Global, value: &Value) -> Result<StatedAppliesTo, SchemaFault>
    ensures { ReadsAs SchemaFault.NoMemory applies_to_view result (applies_to_of (view value.now)) }
{
    if !only_keys(
        value,
        &["principalTypes", "resourceTypes", "context", "annotations"],
    ) {
        return Err(SchemaFault::BadShape);
    }
    let principals = read_names_at(alloc, value, "principalTypes")?;
    let resources = read_names_at(alloc, value, "resourceTypes")?;
    let context = read_optional_type(alloc, optional(value, "context"))?;
    Ok(StatedAppliesTo {
        principals,
        resources,
        context,
    })
}

/// Returns what an action applies to, as a value describes it; `None` if `found` is `None`.
fn read_optional_use(
    alloc: Global,
    found: Option<&Value>,
) -> Result<Option<StatedAppliesTo>, SchemaFault>
    ensures { ReadsAs SchemaFault.NoMemory (option_map applies_to_view) result
        (applies_to_in (option_map (λ v. view v.now) found.entry)) }
{
    match found {
        None => Ok(None),
        Some(value) => Ok(Some(read_use(alloc, value)?)),
    }
}

/// Returns whether the value is absent or an object without members.
fn is_empty(found: Option<&Value>) -> bool
    ensures { result ≡ is_empty_in (option_map (λ v. view v.now) found.entry) }
{
    match found {
        None => true,
        Some(value) => only_keys(value, &[]),
    }
}

/// Returns the action with the id `key` that a value describes.
#[tactic(auto, unfolding(crate::specs::FileForm::action_of))]
pub(crate) fn read_action(
    alloc: Global,
    key: &str,
    value: &Value,
) -> Result<StatedAction, SchemaFault>
    ensures { ReadsAs SchemaFault.NoMemory action_view result (action_of key.now (view value.now)) }
{
    if !only_keys(
        value,
        &["memberOf", "appliesTo", "attributes", "annotations"],
    ) {
        return Err(SchemaFault::BadShape);
    }
    if !is_empty(optional(value, "attributes")) {
        return Err(SchemaFault::BadShape);
    }
    let parents = read_optional_parents(alloc, optional(value, "memberOf"))?;
    let applies_to = read_optional_use(alloc, optional(value, "appliesTo"))?;
    let id = Text::from_str(alloc, key)?;
    Ok(StatedAction {
        id,
        parents,
        applies_to,
    })
}
