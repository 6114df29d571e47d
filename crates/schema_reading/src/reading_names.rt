//! Parsing of the names in a schema file.
ghost use Rattle.std.specs.Prelude.{option_map};
ghost use Rattle.serde_json.specs.View.{view, items_view};
ghost use Rattle.json_words.specs.ReadsAs.{ReadsAs};
ghost use Rattle.schema_reading.specs.FileForm.{ident, name_of, names_of, names_in, names_at, optional_name};
ghost use Rattle.schema_types.specs.declared.fault.SchemaFault.TheVariants as SchemaFault;

use plain::Items;
use schema_types::{SchemaFault, is_qualified, read_type_name};
use serde_json::Value;
use std::alloc::Global;
use values::TypeName;

/// Returns the name that a string denotes, if the string is an identifier; else the error `BadShape` (21).
#[tactic(auto, unfolding(crate::specs::FileForm::ident))]
pub(crate) fn read_ident(alloc: Global, text: &str) -> Result<TypeName, SchemaFault>
    ensures { ReadsAs SchemaFault.NoMemory (λ t. t) result (ident text.now) }
{
    let name = read_type_name(alloc, text)?;
    if is_qualified(text) {
        return Err(SchemaFault::BadShape);
    }
    Ok(name)
}

/// Returns the name that a value denotes, if the value is a string that is a Path; else the error `BadShape` (21).
#[tactic(auto, unfolding(crate::specs::FileForm::name_of))]
fn read_name(alloc: Global, value: &Value) -> Result<TypeName, SchemaFault>
    ensures { ReadsAs SchemaFault.NoMemory (λ t. t) result (name_of (view value.now)) }
{
    match value.as_str() {
        Some(text) => read_type_name(alloc, text),
        None => Err(SchemaFault::BadShape),
    }
}

/// Returns the names in the values; `BadShape` (21) if one is not a string that is a Path.
fn read_names(alloc: Global, values: &[Value]) -> Result<Items<TypeName>, SchemaFault>
    ensures { ReadsAs SchemaFault.NoMemory (λ ns. ns) result (names_of (items_view values.now)) }
{
    let mut names = Items::new(alloc);
    for value in values {
        let name = read_name(alloc, value)?;
        names.push(name)?;
    }
    Ok(names)
}

/// Returns the names in an array; none if `found` is `None`, and `BadShape` (21) if it is not an array of strings that
/// are Paths.
pub(crate) fn read_optional_names(
    alloc: Global,
    found: Option<&Value>,
) -> Result<Items<TypeName>, SchemaFault>
    ensures { ReadsAs SchemaFault.NoMemory (λ ns. ns) result (names_in (option_map (λ v. view v.now) found.entry)) }
{
    match found {
        None => Ok(Items::new(alloc)),
        Some(value) => match value.as_array() {
            Some(list) => read_names(alloc, list),
            None => Err(SchemaFault::BadShape),
        },
    }
}

/// Returns the names in the array at a required key; `BadShape` (21) if there is no array of strings that are Paths.
pub(crate) fn read_names_at(
    alloc: Global,
    value: &Value,
    key: &str,
) -> Result<Items<TypeName>, SchemaFault>
    ensures { ReadsAs SchemaFault.NoMemory (λ ns. ns) result (names_at key.now (view value.now)) }
{
    match value.get(key) {
        None => Err(SchemaFault::BadShape),
        Some(found) => match found.as_array() {
            Some(list) => read_names(alloc, list),
            None => Err(SchemaFault::BadShape),
        },
    }
}

/// Returns the name in a string; `None` if `found` is `None`, and `BadShape` (21) if it is not a string that is a Path.
pub(crate) fn read_optional_name(
    alloc: Global,
    found: Option<&Value>,
) -> Result<Option<TypeName>, SchemaFault>
    ensures { ReadsAs SchemaFault.NoMemory (λ n. n) result (optional_name (option_map (λ v. view v.now) found.entry)) }
{
    match found {
        None => Ok(None),
        Some(value) => Ok(Some(read_name(alloc, value)?)),
    }
}
