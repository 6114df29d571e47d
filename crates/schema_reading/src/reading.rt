//! Parsing of a schema file.
ghost use Rattle.std.specs.Prelude.{map, option_map};
ghost use Rattle.serde_json.specs.View.{view, members_view};
ghost use Rattle.json_words.specs.ReadsAs.{ReadsAs};
ghost use Rattle.schema_reading.specs.inner.StatedViews.{common_view, entity_type_view, action_view, namespace_view};
ghost use Rattle.schema_reading.specs.FileForm.{namespace_name, commons_of, entity_types_of, actions_of, commons_in};
ghost use Rattle.schema_reading.specs.FileForm.{entity_types_in, actions_in, namespace_of, namespaces_of, stated};
ghost use Rattle.schema_types.specs.declared.fault.SchemaFault.TheVariants as SchemaFault;

use crate::reading_actions::read_action;
use crate::reading_types::{read_common, read_entity_type};
use crate::stated::{StatedAction, StatedCommon, StatedEntityType, StatedNamespace};
use json_words::only_keys;
use plain::Items;
use schema_types::{SchemaFault, optional, read_type_name};
use serde_json::{Map, Value};
use std::alloc::Global;
use values::TypeName;

/// Returns the name of the namespace at a key; `None` for the empty key, and `BadShape` (21) if the key is not a Path.
#[tactic(auto, unfolding(crate::specs::FileForm::namespace_name))]
fn read_namespace_name(alloc: Global, key: &str) -> Result<Option<TypeName>, SchemaFault>
    ensures { ReadsAs SchemaFault.NoMemory (λ n. n) result (namespace_name key.now) }
{
    if key.is_empty() {
        return Ok(None);
    }
    Ok(Some(read_type_name(alloc, key)?))
}

/// Returns the common types that the members describe, in the order of their keys.
fn read_commons(
    alloc: Global,
    members: &Map<String, Value>,
) -> Result<Items<StatedCommon>, SchemaFault>
    ensures { ReadsAs SchemaFault.NoMemory (map common_view) result (commons_of (members_view members.now.entries)) }
{
    let mut commons = Items::new(alloc);
    for (key, value) in members.iter() {
        let one = read_common(alloc, key.as_str(), value)?;
        commons.push(one)?;
    }
    Ok(commons)
}

/// Returns the common types that an object describes; none if `found` is `None`, and `BadShape` (21) if it is not an
/// object.
fn read_optional_commons(
    alloc: Global,
    found: Option<&Value>,
) -> Result<Items<StatedCommon>, SchemaFault>
    ensures { ReadsAs SchemaFault.NoMemory (map common_view) result
        (commons_in (option_map (λ v. view v.now) found.entry)) }
{
    match found {
        None => Ok(Items::new(alloc)),
        Some(value) => match value.as_object() {
            Some(members) => read_commons(alloc, members),
            None => Err(SchemaFault::BadShape),
        },
    }
}

/// Returns the entity types that the members describe, in the order of their keys.
fn read_entity_types(
    alloc: Global,
    members: &Map<String, Value>,
) -> Result<Items<StatedEntityType>, SchemaFault>
    ensures { ReadsAs SchemaFault.NoMemory (map entity_type_view) result
        (entity_types_of (members_view members.now.entries)) }
{
    let mut entity_types = Items::new(alloc);
    for (key, value) in members.iter() {
        let one = read_entity_type(alloc, key.as_str(), value)?;
        entity_types.push(one)?;
    }
    Ok(entity_types)
}

/// Returns the entity types that an object describes; none if `found` is `None`, and `BadShape` (21) if it is not an
/// object.
fn read_optional_entity_types(
    alloc: Global,
    found: Option<&Value>,
) -> Result<Items<StatedEntityType>, SchemaFault>
    ensures { ReadsAs SchemaFault.NoMemory (map entity_type_view) result
        (entity_types_in (option_map (λ v. view v.now) found.entry)) }
{
    match found {
        None => Ok(Items::new(alloc)),
        Some(value) => match value.as_object() {
            Some(members) => read_entity_types(alloc, members),
            None => Err(SchemaFault::BadShape),
        },
    }
}

/// Returns the actions that the members describe, in the order of their keys.
fn read_actions(
    alloc: Global,
    members: &Map<String, Value>,
) -> Result<Items<StatedAction>, SchemaFault>
    ensures { ReadsAs SchemaFault.NoMemory (map action_view) result (actions_of (members_view members.now.entries)) }
{
    let mut actions = Items::new(alloc);
    for (key, value) in members.iter() {
        let one = read_action(alloc, key.as_str(), value)?;
        actions.push(one)?;
    }
    Ok(actions)
}

/// Returns the actions that an object describes; none if `found` is `None`, and `BadShape` (21) if it is not an object.
fn read_optional_actions(
    alloc: Global,
    found: Option<&Value>,
) -> Result<Items<StatedAction>, SchemaFault>
    ensures { ReadsAs SchemaFault.NoMemory (map action_view) result
        (actions_in (option_map (λ v. view v.now) found.entry)) }
{
    match found {
        None => Ok(Items::new(alloc)),
        Some(value) => match value.as_object() {
            Some(members) => read_actions(alloc, members),
            None => Err(SchemaFault::BadShape),
        },
    }
}

/// Returns the namespace at the key `key` that a value describes.
#[tactic(auto, unfolding(crate::specs::FileForm::namespace_of))]
fn read_namespace(alloc: Global, key: &str, value: &Value) -> Result<StatedNamespace, SchemaFault>
    ensures { ReadsAs SchemaFault.NoMemory namespace_view result (namespace_of key.now (view value.now)) }
{
    let name = read_namespace_name(alloc, key)?;
    if !only_keys(
        value,
        &["commonTypes", "entityTypes", "actions", "annotations"],
    ) {
        return Err(SchemaFault::BadShape);
    }
    let commons = read_optional_commons(alloc, optional(value, "commonTypes"))?;
    let entity_types = read_optional_entity_types(alloc, optional(value, "entityTypes"))?;
    let actions = read_optional_actions(alloc, optional(value, "actions"))?;
    Ok(StatedNamespace {
        name,
        commons,
        entity_types,
        actions,
    })
}

/// Returns the namespaces that the members describe, in the order of their keys.
fn read_namespaces(
    alloc: Global,
    members: &Map<String, Value>,
) -> Result<Items<StatedNamespace>, SchemaFault>
    ensures { ReadsAs SchemaFault.NoMemory (map namespace_view) result
        (namespaces_of (members_view members.now.entries)) }
{
    let mut namespaces = Items::new(alloc);
    for (key, value) in members.iter() {
        let one = read_namespace(alloc, key.as_str(), value)?;
        namespaces.push(one)?;
    }
    Ok(namespaces)
}

/// Returns the namespaces of a schema file.
///
/// # Errors
///
/// - `BadShape` (21): the value does not have the form of a schema.
/// - `NoMemory` (1): an allocation failed; possible at any point.
#[tactic(auto, unfolding(crate::specs::FileForm::stated))]
pub(crate) fn read_stated(
    alloc: Global,
    value: &Value,
) -> Result<Items<StatedNamespace>, SchemaFault>
    ensures { ReadsAs SchemaFault.NoMemory (map namespace_view) result (stated (view value.now)) }
{
    match value.as_object() {
        Some(members) => read_namespaces(alloc, members),
        None => Err(SchemaFault::BadShape),
    }
}
