//! Parsing of the types of a schema file: common types and entity types.
ghost use Rattle.std.specs.Prelude.{◌≡◌, option_map};
ghost use Rattle.serde_json.specs.View.{view};
ghost use Rattle.json_words.specs.ReadsAs.{ReadsAs};
ghost use Rattle.schema_types.specs.Views.{raw_view};
ghost use Rattle.schema_reading.specs.inner.StatedViews.{common_view, entity_type_view};
ghost use Rattle.schema_reading.specs.FileForm.{type_in, is_common as is_common_form, common_of, entity_type_name};
ghost use Rattle.schema_reading.specs.FileForm.{entity_type_of};
ghost use Rattle.schema_types.specs.declared.fault.SchemaFault.TheVariants as SchemaFault;

use crate::reading_names::{read_ident, read_optional_names};
use crate::stated::{StatedCommon, StatedEntityType};
use json_words::only_keys;
use schema_types::{Form, RawType, SchemaFault, form_named, optional, read_type};
use serde_json::Value;
use std::alloc::Global;
use values::TypeName;

/// Returns the type that an optional value describes; `None` if there is no value.
pub(crate) fn read_optional_type(
    alloc: Global,
    found: Option<&Value>,
) -> Result<Option<RawType>, SchemaFault>
    ensures { ReadsAs SchemaFault.NoMemory (option_map raw_view) result
        (type_in (option_map (λ v. view v.now) found.entry)) }
{
    match found {
        None => Ok(None),
        Some(value) => Ok(Some(read_type(alloc, value, false)?)),
    }
}

/// Returns whether a name that selects this form may be that of a common type.
fn is_common(form: Form) -> bool
    ensures { result ≡ is_common_form form }
{
    matches!(form, Form::Common)
}

/// Returns the common type with the name `key` that a value describes.
#[tactic(auto, unfolding(crate::specs::FileForm::common_of))]
pub(crate) fn read_common(
    alloc: Global,
    key: &str,
    value: &Value,
) -> Result<StatedCommon, SchemaFault>
    ensures { ReadsAs SchemaFault.NoMemory common_view result (common_of key.now (view value.now)) }
{
    let name = read_ident(alloc, key)?;
    if !is_common(form_named(key)) {
        return Err(SchemaFault::BadShape);
    }
    let ty = read_type(alloc, value, false)?;
    Ok(StatedCommon { name, ty })
}

/// Returns the name of the entity type at a key; `BadShape` (21) if it is not an identifier, or is `Action`.
#[tactic(auto)]
fn read_entity_type_name(alloc: Global, key: &str) -> Result<TypeName, SchemaFault>
    ensures { ReadsAs SchemaFault.NoMemory (λ t. t) result (entity_type_name key.now) }
{
    let name = read_ident(alloc, key)?;
    if key == "Action" {
        return Err(SchemaFault::BadShape);
    }
    Ok(name)
}

/// Returns the entity type with the name `key` that a value describes.
#[tactic(auto, unfolding(crate::specs::FileForm::entity_type_of))]
pub(crate) fn read_entity_type(
    alloc: Global,
    key: &str,
    value: &Value,
) -> Result<StatedEntityType, SchemaFault>
    ensures { ReadsAs SchemaFault.NoMemory entity_type_view result (entity_type_of key.now (view value.now)) }
{
    let name = read_entity_type_name(alloc, key)?;
    if !only_keys(value, &["memberOfTypes", "shape", "annotations"]) {
        return Err(SchemaFault::BadShape);
    }
    let parents = read_optional_names(alloc, optional(value, "memberOfTypes"))?;
    let shape = read_optional_type(alloc, optional(value, "shape"))?;
    Ok(StatedEntityType {
        name,
        parents,
        shape,
    })
}
