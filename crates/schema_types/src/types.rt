//! The type that JSON describes.
ghost use Rattle.std.specs.Prelude.{◌≡◌, option_map};
ghost use Rattle.serde_json.specs.View.{view, members_view};
ghost use Rattle.json_words.specs.ReadsAs.{ReadsAs, AlwaysReadsAs};
ghost use Rattle.schema_types.specs.Views.{raw_view, fields_view};
ghost use Rattle.schema_types.specs.TypeShape.{type_of, attributes_of, required_in, fields_in, type_name};
ghost use Rattle.schema_types.specs.inner.TypeRule.{type_rule};
ghost use Rattle.schema_types.specs.TypeShape.{name_in, reserved_type, entity_or_common};
ghost use Rattle.schema_types.specs.TypeShape.{extension_named as extension_of};
ghost use Rattle.schema_types.specs.declared.fault.SchemaFault.TheVariants as SchemaFault;

use crate::Form;
use crate::fault::SchemaFault;
use crate::forms::{form_named, has_keys_of};
use crate::keys::{demand_closed, optional, required_text, truth_or};
use crate::raw::RawType;
use serde_json::{Map, Value};
use std::alloc::Global;
use values::{TypeName, path_tests_are_exact};

/// Returns the type name that a string denotes, or `BadShape` (21) if the string is not a Path.
pub fn read_type_name(alloc: Global, word: &str) -> Result<TypeName, SchemaFault>
    ensures { ReadsAs SchemaFault.NoMemory (λ t. t) result (type_name word.now) }
{
    path_tests_are_exact();
    match TypeName::parse(alloc, word)? {
        Some(name) => Ok(name),
        None => Err(SchemaFault::BadShape),
    }
}

/// Returns the name at the key `name`, or `BadShape` (21) if there is no string at the key, or the string is not a
/// Path.
fn name_in(alloc: Global, value: &Value) -> Result<TypeName, SchemaFault>
    ensures { ReadsAs SchemaFault.NoMemory (λ t. t) result (name_in (view value.now)) }
{
    let word = required_text(value, "name")?;
    read_type_name(alloc, word)
}

/// Returns the primitive or extension type that a word names with the prefix `__cedar::`, if it names one.
#[tactic(auto, unfolding(crate::specs::TypeShape::reserved_type))]
fn reserved_type(word: &str) -> Option<RawType>
    ensures { option_map raw_view result ≡ reserved_type word.now }
{
    if word == "__cedar::String" {
        return Some(RawType::Text);
    }
    if word == "__cedar::Long" {
        return Some(RawType::Long);
    }
    if word == "__cedar::Boolean" {
        return Some(RawType::Boolean);
    }
    if word == "__cedar::Bool" {
        return Some(RawType::Boolean);
    }
    if word == "__cedar::ipaddr" {
        return Some(RawType::Ipaddr);
    }
    if word == "__cedar::decimal" {
        return Some(RawType::Decimal);
    }
    None
}

/// Returns the type with this name at an `EntityOrCommon`, before the name is resolved; `BadShape` (21) if the name is
/// neither a Path nor one of the six with the prefix `__cedar::`.
fn entity_or_common(alloc: Global, word: &str) -> Result<RawType, SchemaFault>
    ensures { ReadsAs SchemaFault.NoMemory raw_view result (entity_or_common word.now) }
{
    match reserved_type(word) {
        Some(ty) => Ok(ty),
        None => Ok(RawType::EntityOrCommon(read_type_name(alloc, word)?)),
    }
}

/// Returns the extension type with this name, if there is one.
#[tactic(auto, unfolding(crate::specs::TypeShape::extension_named))]
fn extension_named(word: &str) -> Option<RawType>
    ensures { option_map raw_view result ≡ extension_of word.now }
{
    if word == "ipaddr" {
        return Some(RawType::Ipaddr);
    }
    if word == "decimal" {
        return Some(RawType::Decimal);
    }
    None
}

/// Returns whether an attribute is required: the boolean at its key `required`, `true` if that is missing or null, or
/// `BadShape` (21) for another value.
fn is_required(value: &Value) -> Result<bool, SchemaFault>
    ensures { AlwaysReadsAs (λ b. b) result (required_in (view value.now)) }
{
    truth_or(true, optional(value, "required"))
}

/// Returns the type that a value describes. If `is_attribute`, the type is an attribute's, and may have the key
/// `required`.
///
/// # Errors
///
/// - `BadShape` (21): the value, or a part of it, does not have any of the forms.
/// - `NoMemory` (1): an allocation failed; possible at any point.
#[cycle(read_type)]
pub fn read_type(alloc: Global, value: &Value, is_attribute: bool) -> Result<RawType, SchemaFault>
    ensures { ReadsAs SchemaFault.NoMemory raw_view result (type_of is_attribute (view value.now)) }
{
    read_formed(alloc, value, is_attribute)
}

/// Returns the type that a value describes, by its form.
#[cycle(read_type)]
#[tactic(auto, unfolding(crate::specs::TypeShape::formed))]
fn read_formed(alloc: Global, value: &Value, is_attribute: bool) -> Result<RawType, SchemaFault>
    ensures { ReadsAs SchemaFault.NoMemory raw_view result (type_rule is_attribute (view value.now)) }
{
    let word = required_text(value, "type")?;
    let form = form_named(word);
    if !has_keys_of(value, is_attribute, form) {
        return Err(SchemaFault::BadShape);
    }
    match form {
        Form::Text => Ok(RawType::Text),
        Form::Long => Ok(RawType::Long),
        Form::Boolean => Ok(RawType::Boolean),
        Form::Set => {
            let Some(element) = value.get("element") else {
                return Err(SchemaFault::BadShape);
            };
            let element = read_type(alloc, element, false)?;
            Ok(RawType::Set(Box::new(alloc, element)?))
        }
        Form::Record => {
            demand_closed(optional(value, "additionalAttributes"))?;
            let Some(attributes) = value.get("attributes") else {
                return Err(SchemaFault::BadShape);
            };
            Ok(RawType::Record(read_attributes(alloc, attributes)?))
        }
        Form::Entity => Ok(RawType::Entity(name_in(alloc, value)?)),
        Form::Extension => {
            let word = required_text(value, "name")?;
            match extension_named(word) {
                Some(extension) => Ok(extension),
                None => Err(SchemaFault::BadShape),
            }
        }
        Form::EntityOrCommon => entity_or_common(alloc, required_text(value, "name")?),
        Form::Common => Ok(RawType::Common(read_type_name(alloc, word)?)),
    }
}

/// Returns the fields that `value`, the value at the key `attributes`, describes.
#[cycle(read_type)]
#[tactic(auto, unfolding(crate::specs::TypeShape::type_of))]
fn read_attributes(
    alloc: Global,
    value: &Value,
) -> Result<Vec<(String, RawType, bool)>, SchemaFault>
    ensures { ReadsAs SchemaFault.NoMemory (λ fs. fields_view fs.items) result (attributes_of (view value.now)) }
{
    match value {
        Value::Null | Value::Bool(_) | Value::Number(_) | Value::String(_) | Value::Array(_) => {
            Err(SchemaFault::BadShape)
        }
        Value::Object(members) => read_fields(alloc, members),
    }
}

/// Returns the fields of a record, one for each member of an object.
#[cycle(read_type)]
fn read_fields(
    alloc: Global,
    members: &Map<String, Value>,
) -> Result<Vec<(String, RawType, bool)>, SchemaFault>
    ensures { ReadsAs SchemaFault.NoMemory (λ fs. fields_view fs.items) result
        (fields_in (members_view members.now.entries)) }
{
    let mut fields = Vec::new(alloc);
    for (key, member) in members.iter() {
        let field = read_type(alloc, member, true)?;
        let required = is_required(member)?;
        let name = String::from_str(alloc, key.as_str())?;
        fields.push((name, field, required))?;
    }
    Ok(fields)
}
