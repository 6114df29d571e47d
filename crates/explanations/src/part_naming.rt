//! The words in which an explanation names the part at fault of an entity or a request.
ghost use Rattle.std.specs.Prelude.{◌≡◌, ◌++◌, IfOk, MatchResult, OnOk, option_and_then, option_map, string_bytes};
ghost use Rattle.serde_json.specs.Find.{at};
ghost use Rattle.serde_json.specs.View.{view};
ghost use Rattle.schema_types.specs.CedarViews.{cedar_view};
ghost use Rattle.schema_decisions.specs.schema.Views.{schema_view};
ghost use Rattle.explanations.specs.PartWords.{type_word, is_of_value, type_of_part, declared_words};
ghost use Rattle.explanations.specs.PartWords.{pointer_words, part_words, NamesPartOfEntity, NamesPartOfRequest};
ghost use Rattle.explanations.specs.PartWords.{NamesPartOfItem};
ghost use Rattle.explanations.specs.Steps.{steps_view};
ghost use Rattle.explanations.specs.Pointers.{pointer_of};
ghost use Rattle.explanations.specs.PartWords.{NamesPartOfRequestText};

use crate::entity_paths::{entity_fault, shape_at};
use crate::part_faults::PartFault;
use crate::pointers::push_steps;
use crate::request_paths::{asked_type, request_fault};
use crate::steps::Step;
use crate::type_paths::type_at;
use entities::{EntityFault, Schema, drop_json};
use json_words::read_json;
use plain::{NoMemory, Text};
use schema_types::CedarType;
use serde_json::Value;
use std::alloc::Global;

/// Returns the word for a type.
fn type_word(ty: &CedarType) -> &str
    ensures { result.now ≡ type_word (cedar_view ty.now) }
{
    match ty {
        CedarType::Text => "String",
        CedarType::Long => "Long",
        CedarType::Boolean => "Boolean",
        CedarType::Decimal => "decimal",
        CedarType::Ipaddr => "ipaddr",
        CedarType::Set(_) => "Set",
        CedarType::Record(_) => "Record",
        CedarType::Entity(name) => name.as_str(),
    }
}

/// Returns whether an error is that of an attribute or of a context.
fn is_of_value(fault: EntityFault) -> bool
    ensures { result ≡ is_of_value fault }
{
    match fault {
        EntityFault::Undeclared | EntityFault::Missing | EntityFault::WrongType => true,
        _ => false,
    }
}

/// Returns the declared type of the part that an error is about. The first step of its path, `attrs` or `context`,
/// leads to a value of the type `whole`, and the others from there to the part.
fn type_of_part<'s>(found: &PartFault<'_>, whole: Option<&'s CedarType>) -> Option<&'s CedarType>
    ensures { option_map (λ t. cedar_view t.now) result
        ≡ type_of_part found.now (option_map (λ t. cedar_view t.now) whole.entry) }
{
    if !is_of_value(found.fault) {
        return None;
    }
    match whole {
        Some(whole) => match found.path.as_slice().split_first() {
            Some((_, path)) => type_at(whole, path),
            None => None,
        },
        None => None,
    }
}

/// Appends `at ` and the pointer of a path; nothing for the empty path, which leads to the whole value.
fn push_pointer(out: &mut String, path: &[Step<'_>]) -> Result<(), NoMemory>
    ensures { OnOk result (string_bytes out.new
        ≡ string_bytes out.old ++ pointer_words (pointer_of (steps_view path.now))) }
{
    if path.is_empty() {
        return Ok(());
    }
    match out.push_str("at ") {
        Ok(()) => push_steps(out, path),
        Err(fault) => Err(fault),
    }
}

/// Appends `: TYPE is declared` with the word for this type; nothing for `None`.
fn push_declared(out: &mut String, ty: Option<&CedarType>) -> Result<(), NoMemory>
    ensures { OnOk result (string_bytes out.new
        ≡ string_bytes out.old ++ declared_words (option_map (λ t. cedar_view t.now) ty.entry)) }
{
    match ty {
        Some(ty) => write!(out, ": {} is declared", type_word(ty)),
        None => Ok(()),
    }
}

/// Appends the words that name the part that an error is about, if there is an error.
fn push_part(
    out: &mut String,
    found: &Option<PartFault<'_>>,
    whole: Option<&CedarType>,
) -> Result<(), NoMemory>
    ensures { OnOk result (string_bytes out.new ≡ string_bytes out.old
        ++ part_words found.now (option_map (λ t. cedar_view t.now) whole.entry)) }
{
    match found {
        Some(found) => match push_pointer(out, found.path.as_slice()) {
            Ok(()) => push_declared(out, type_of_part(found, whole)),
            Err(fault) => Err(fault),
        },
        None => Ok(()),
    }
}

/// Returns the words that name the part that an error is about; none if a search found no error. The call's only error
/// is `NoMemory`, its own or that of the search.
fn part_words(
    alloc: Global,
    found: Result<Option<PartFault<'_>>, NoMemory>,
    whole: Option<&CedarType>,
) -> Result<Text, NoMemory>
    ensures { IfOk result (λ words. MatchResult found.entry
        (λ o. words ≡ part_words o (option_map (λ t. cedar_view t.now) whole.entry)) (λ _. ⊥)) }
{
    match found {
        Ok(found) => {
            let mut out = String::new(alloc);
            let pushed = push_part(&mut out, &found, whole);
            drop(found);
            match pushed {
                Ok(()) => Ok(Text::from_string(out)),
                Err(fault) => Err(fault),
            }
        }
        Err(fault) => Err(fault),
    }
}

/// Returns the words that name the part at fault when a value is parsed as an entity; none if there is no value.
fn entity_part_words(
    alloc: Global,
    schema: &Schema,
    value: Option<&Value>,
) -> Result<Text, NoMemory>
    ensures { IfOk result
        (NamesPartOfEntity (schema_view schema.now) (option_map (λ v. view v.now) value.entry)) }
{
    match value {
        Some(value) => match shape_at(alloc, schema, value.get("uid")) {
            Ok(shape) => part_words(alloc, entity_fault(alloc, schema, value), shape),
            Err(fault) => Err(fault),
        },
        None => Ok(Text::from_string(String::new(alloc))),
    }
}

/// Returns the words that name the part at fault when a value is parsed as a request; none if there is no value.
fn request_part_words(
    alloc: Global,
    schema: &Schema,
    value: Option<&Value>,
) -> Result<Text, NoMemory>
    ensures { IfOk result
        (NamesPartOfRequest (schema_view schema.now) (option_map (λ v. view v.now) value.entry)) }
{
    match value {
        Some(value) => match asked_type(alloc, schema, value) {
            Ok(context) => part_words(alloc, request_fault(alloc, schema, value), context),
            Err(fault) => Err(fault),
        },
        None => Ok(Text::from_string(String::new(alloc))),
    }
}

/// Returns the item at `index` of the array `value`, or `None` if `value` is not an array with such an item or an
/// argument is `None`.
fn item_of(value: Option<&Value>, index: Option<usize>) -> Option<&Value>
    ensures { option_map (λ v. view v.now) result
        ≡ option_and_then (λ i. option_and_then (at i) (option_map (λ v. view v.now) value.entry)) index }
{
    match index {
        Some(index) => match value {
            Some(value) => value.get(index),
            None => None,
        },
        None => None,
    }
}

/// Returns the words that name the part at fault when a schema rejects the item at an index of a JSON array as an
/// entity.
///
/// They are `at ` and the JSON pointer of the part relative to the item, with the type that is declared for a part of
/// the attributes. They are empty if the whole item is at fault, if no item is at this index, or if the item is an
/// entity when the other items are ignored.
///
/// # Errors
///
/// - `NoMemory` (1): an allocation failed.
pub(crate) fn entity_part(
    alloc: Global,
    schema: &Schema,
    text: &[u8],
    index: Option<usize>,
) -> Result<Text, NoMemory>
    ensures { IfOk result (NamesPartOfItem (schema_view schema.now) text.now index) }
{
    match read_json(alloc, text) {
        Ok(value) => {
            let words = entity_part_words(alloc, schema, item_of(value.as_ref(), index));
            drop_json(value);
            words
        }
        Err(fault) => Err(fault),
    }
}

/// Returns the words that name the part at fault of a request that a schema rejects.
///
/// They are `at ` and the JSON pointer of the part, with the type that is declared for a part of the context. They are
/// empty if the whole is at fault, if the text is not JSON, or if it is a request.
///
/// # Errors
///
/// - `NoMemory` (1): an allocation failed.
pub(crate) fn request_part(alloc: Global, schema: &Schema, text: &[u8]) -> Result<Text, NoMemory>
    ensures { IfOk result (NamesPartOfRequestText (schema_view schema.now) text.now) }
{
    match read_json(alloc, text) {
        Ok(value) => {
            let words = request_part_words(alloc, schema, value.as_ref());
            drop_json(value);
            words
        }
        Err(fault) => Err(fault),
    }
}
