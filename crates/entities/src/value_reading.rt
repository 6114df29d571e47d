//! Parsing of JSON values as values of a Cedar type.
ghost use Rattle.std.specs.Prelude.{◌≡◌, IfOk, is_ok};
ghost use Rattle.serde_json.specs.View.{view, items_view, members_view};
ghost use Rattle.json_words.specs.ReadsAs.{ReadsAs, AlwaysReadsAs, or_fault};
ghost use Rattle.json_words.specs.Json.{text_at as text_in_json};
ghost use Rattle.schema_types.specs.CedarViews.{cedar_view, cedar_fields_view};
ghost use Rattle.entities.specs.declared.fault.EntityFault.TheVariants as EntityFault;
ghost use Rattle.values.specs.extensions.TextsDecided.{decimal_of, network_of};
ghost use Rattle.entities.specs.Typing.{plain_call, call_in, argument_in, boolean_in, long_of, long_in, text_in};
ghost use Rattle.entities.specs.Typing.{entity_in, decimal_in, ipaddr_in, leaf, all_there};
ghost use Rattle.entities.specs.Typing.{typed_value as typed_of};
ghost use Rattle.entities.specs.Typing.{record_in};
ghost use Rattle.entities.specs.inner.InnerErrors.{inside_fault};
ghost use Rattle.entities.specs.inner.InPlace.{IsInPlace};
ghost use Rattle.entities.specs.inner.FieldSuffixes.{DeclareAlikeFrom};
ghost use Rattle.entities.specs.Typing.{typed_items as items_of_type, typed_members as members_of_type};

use crate::fault::EntityFault;
use crate::type_parts::{Field, declared_type, element_type, record_fields};
use entity_uids::read_uid;
use json_words::{only_keys, text_at};
use plain::{NoMemory, Text};
use schema_types::CedarType;
use serde_json::{Map, Value as Json};
use std::alloc::Global;
use values::{Decimal, IpNet, Record, TypeName, Value};

/// Returns the rest of `fields` from the first field whose name is not less than `name`. A caller that looks up names
/// in ascending order need not visit the skipped fields again.
fn from_name<'t>(fields: &'t [Field], name: &str) -> &'t [Field]
    ensures { DeclareAlikeFrom name.now (cedar_fields_view fields.now) (cedar_fields_view result.now) }
{
    for place in 0..fields.len() {
        if !fields[place].0.as_str().cmp(name).is_lt() {
            return &fields[place..];
        }
    }
    &[]
}

/// Returns whether each required field is present.
fn has_required(fields: &[Field], value: &Json) -> bool
    ensures { result ≡ all_there (cedar_fields_view fields.now) (view value.now) }
{
    for field in fields {
        if field.2 && value.get(field.0.as_str()).is_none() {
            return false;
        }
    }
    true
}

// ---- values that are neither sets nor records

/// Returns the string at a key, or `WrongType` if the key is absent or has another value.
fn read_text_at<'v>(value: &'v Json, key: &str) -> Result<&'v str, EntityFault>
    ensures { AlwaysReadsAs (λ s. s.now) result
        (or_fault EntityFault.WrongType (text_in_json key.now (view value.now))) }
{
    match text_at(value, key) {
        Some(text) => Ok(text),
        None => Err(EntityFault::WrongType),
    }
}

/// Returns the string A if the value is `{"fn":name,"arg":A}` without other keys, else `WrongType`.
#[tactic(auto, unfolding(crate::specs::Typing::plain_call))]
fn read_plain_call<'v>(value: &'v Json, name: &str) -> Result<&'v str, EntityFault>
    ensures { AlwaysReadsAs (λ s. s.now) result (plain_call name.now (view value.now)) }
{
    if !only_keys(value, &["fn", "arg"]) {
        return Err(EntityFault::WrongType);
    }
    let given = read_text_at(value, "fn")?;
    let argument = read_text_at(value, "arg")?;
    if given != name {
        return Err(EntityFault::WrongType);
    }
    Ok(argument)
}

/// Returns the argument of a call of this name; `WrongType` if there is no such call. The call is the value itself, or
/// is under its only key `__extn`.
#[tactic(auto, unfolding(crate::specs::Typing::call_in))]
fn read_call<'v>(value: &'v Json, name: &str) -> Result<&'v str, EntityFault>
    ensures { AlwaysReadsAs (λ s. s.now) result (call_in name.now (view value.now)) }
{
    match value.get("__extn") {
        None => read_plain_call(value, name),
        Some(inner) => {
            if !only_keys(value, &["__extn"]) {
                return Err(EntityFault::WrongType);
            }
            read_plain_call(inner, name)
        }
    }
}

/// Returns the argument of the extension function `name`: the string itself, or the argument of a call of this name.
/// Returns `WrongType` for other JSON.
#[tactic(auto, unfolding(crate::specs::Typing::argument_in))]
fn read_argument<'v>(value: &'v Json, name: &str) -> Result<&'v str, EntityFault>
    ensures { AlwaysReadsAs (λ s. s.now) result (argument_in name.now (view value.now)) }
{
    match value.as_str() {
        Some(text) => Ok(text),
        None => read_call(value, name),
    }
}

/// Parses a decimal. Returns `None` if the string is not a decimal.
fn parse_decimal(text: &str) -> Option<Decimal>
    ensures { result ≡ decimal_of text.now }
{
    Decimal::parse(text)
}

/// Parses an IP address or range. Returns `None` if the string is neither.
fn parse_network(text: &str) -> Option<IpNet>
    ensures { result ≡ network_of text.now }
{
    IpNet::parse(text)
}

/// Parses a JSON value as a boolean. Returns `WrongType` for other JSON.
#[tactic(auto, unfolding(crate::specs::Typing::boolean_in))]
fn read_boolean(value: &Json) -> Result<Value, EntityFault>
    ensures { AlwaysReadsAs (λ v. v) result (boolean_in (view value.now)) }
{
    match value.as_bool() {
        Some(b) => Ok(Value::boolean(b)),
        None => Err(EntityFault::WrongType),
    }
}

/// Returns a signed 64-bit integer as a Long; never an error.
fn long_value(number: i64) -> Result<Value, EntityFault>
    ensures { AlwaysReadsAs (λ v. v) result (long_of number) }
{
    Ok(Value::long(number))
}

/// Parses a JSON value as a Long. Returns `WrongType` unless it is an integer in signed 64 bits.
#[tactic(auto, unfolding(crate::specs::Typing::long_in))]
fn read_long(value: &Json) -> Result<Value, EntityFault>
    ensures { AlwaysReadsAs (λ v. v) result (long_in (view value.now)) }
{
    match value {
        Json::Number(number) => match number.as_i64() {
            Some(number) => long_value(number),
            None => Err(EntityFault::WrongType),
        },
        _ => Err(EntityFault::WrongType),
    }
}

/// Parses a JSON value as a string. Returns `WrongType` for other JSON.
#[tactic(auto, unfolding(crate::specs::Typing::text_in))]
fn read_text(alloc: Global, value: &Json) -> Result<Value, EntityFault>
    ensures { ReadsAs EntityFault.NoMemory (λ v. v) result (text_in (view value.now)) }
{
    match value.as_str() {
        Some(text) => Ok(Value::text(Text::from_str(alloc, text)?)),
        None => Err(EntityFault::WrongType),
    }
}

/// Returns the entity that a value names, or `WrongType` if it names none of this type.
#[tactic(auto, unfolding(crate::specs::Typing::entity_in))]
fn read_entity(alloc: Global, value: &Json, name: &TypeName) -> Result<Value, EntityFault>
    ensures { ReadsAs EntityFault.NoMemory (λ v. v) result (entity_in name.now (view value.now)) }
{
    let Some(uid) = read_uid(alloc, value)? else {
        return Err(EntityFault::WrongType);
    };
    if uid.type_name.as_str() != name.as_str() {
        return Err(EntityFault::WrongType);
    }
    Ok(Value::entity(uid))
}

/// Parses a JSON value as a decimal. Returns `WrongType` if it describes none.
#[tactic(auto, unfolding(crate::specs::Typing::decimal_in))]
fn read_decimal(value: &Json) -> Result<Value, EntityFault>
    ensures { AlwaysReadsAs (λ v. v) result (decimal_in (view value.now)) }
{
    let text = read_argument(value, "decimal")?;
    match parse_decimal(text) {
        Some(number) => Ok(Value::decimal(number)),
        None => Err(EntityFault::WrongType),
    }
}

/// Parses a JSON value as an IP address or range. Returns `WrongType` if it describes neither.
#[tactic(auto, unfolding(crate::specs::Typing::ipaddr_in))]
fn read_network(value: &Json) -> Result<Value, EntityFault>
    ensures { AlwaysReadsAs (λ v. v) result (ipaddr_in (view value.now)) }
{
    let text = read_argument(value, "ip")?;
    match parse_network(text) {
        Some(network) => Ok(Value::ipaddr(network)),
        None => Err(EntityFault::WrongType),
    }
}

/// Parses a JSON value as a value of a type that is neither a set type nor a record type. Returns `WrongType` for
/// another type, and for other JSON. Does not allocate for a boolean, a Long, a decimal or an IP address.
#[tactic(auto, using(crate::proofs::Nothing::always_reads))]
fn read_leaf(alloc: Global, value: &Json, ty: &CedarType) -> Result<Value, EntityFault>
    ensures reads { ReadsAs EntityFault.NoMemory (λ v. v) result (leaf (cedar_view ty.now) (view value.now)) }
    ensures always { IsInPlace (cedar_view ty.now)
        → AlwaysReadsAs (λ v. v) result (leaf (cedar_view ty.now) (view value.now)) }
{
    match ty {
        CedarType::Boolean => read_boolean(value),
        CedarType::Long => read_long(value),
        CedarType::Text => read_text(alloc, value),
        CedarType::Entity(name) => read_entity(alloc, value, name),
        CedarType::Set(_) => Err(EntityFault::WrongType),
        CedarType::Record(_) => Err(EntityFault::WrongType),
        CedarType::Decimal => read_decimal(value),
        CedarType::Ipaddr => read_network(value),
    }
}

// ---- all values

/// Returns the error of a value, given the error of a part of it: `WrongType` for any error but `NoMemory`.
fn inside(fault: EntityFault) -> EntityFault
    ensures { result ≡ inside_fault fault }
{
    match fault {
        EntityFault::NoMemory => EntityFault::NoMemory,
        _ => EntityFault::WrongType,
    }
}

/// Parses a JSON value as a value of this type.
///
/// Returns `WrongType` if the JSON describes none: for example, if it is of another kind, or an object with an
/// undeclared key or without a required one. Does not allocate for a boolean, a Long, a decimal or an IP address.
#[cycle(typed_value)]
#[tactic(auto, unfolding(crate::specs::Typing::typed_value))]
fn typed_value(alloc: Global, value: &Json, ty: &CedarType) -> Result<Value, EntityFault>
    ensures reads { ReadsAs EntityFault.NoMemory (λ v. v) result (typed_of (cedar_view ty.now) (view value.now)) }
    ensures always { IsInPlace (cedar_view ty.now)
        → AlwaysReadsAs (λ v. v) result (typed_of (cedar_view ty.now) (view value.now)) }
{
    match value {
        Json::Null => read_leaf(alloc, value, ty),
        Json::Bool(_) => read_leaf(alloc, value, ty),
        Json::Number(_) => read_leaf(alloc, value, ty),
        Json::String(_) => read_leaf(alloc, value, ty),
        Json::Array(items) => {
            let Some(element) = element_type(ty) else {
                return Err(EntityFault::WrongType);
            };
            let members = typed_items(alloc, items, element)?;
            Ok(Value::set(members)?)
        }
        Json::Object(members) => match record_fields(ty) {
            None => read_leaf(alloc, value, ty),
            Some(fields) => {
                let record = match typed_members(alloc, members, fields) {
                    Ok(record) => record,
                    Err(fault) => return Err(inside(fault)),
                };
                if !has_required(fields, value) {
                    return Err(EntityFault::WrongType);
                }
                Ok(Value::from_record(record))
            }
        },
    }
}

/// Parses each item of an array as a value of this type. Returns `WrongType` if one of them describes none.
#[cycle(typed_value)]
fn typed_items(alloc: Global, items: &Vec<Json>, ty: &CedarType) -> Result<Vec<Value>, EntityFault>
    ensures { ReadsAs EntityFault.NoMemory (λ vs. vs.items) result
        (items_of_type (cedar_view ty.now) (items_view items.now.items)) }
{
    let mut values = Vec::new(alloc);
    for item in items {
        let value = typed_value(alloc, item, ty)?;
        values.push(value)?;
    }
    Ok(values)
}

/// Parses the members of an object as fields of a record type. The fields are looked up in ascending order of the keys.
/// Returns the error of the first faulty member: `Undeclared`, its key is not declared; `WrongType`, its value is not
/// of the field's type.
#[cycle(typed_value)]
fn typed_members(
    alloc: Global,
    members: &Map<String, Json>,
    fields: &[Field],
) -> Result<Record, EntityFault>
    ensures { ReadsAs EntityFault.NoMemory (λ r. r) result
        (members_of_type (cedar_fields_view fields.now) (members_view members.now.entries)) }
{
    let mut record = Record::new(alloc);
    let mut rest = fields;
    for (key, member) in members.iter() {
        let name = key.as_str();
        rest = from_name(rest, name);
        let ty = match declared_type(rest, name) {
            Some(ty) => ty,
            None => return Err(EntityFault::Undeclared),
        };
        let value = typed_value(alloc, member, ty)?;
        let name = Text::from_str(alloc, name)?;
        record.insert(name, value)?;
    }
    Ok(record)
}

/// Returns whether a JSON value describes a value of this type. Parses the value, and drops what it describes.
///
/// # Errors
///
/// - `NoMemory` (1): an allocation failed.
pub fn is_of_type(alloc: Global, value: &Json, ty: &CedarType) -> Result<bool, NoMemory>
    ensures { IfOk result (λ yes. yes ≡ is_ok (typed_of (cedar_view ty.now) (view value.now))) }
{
    match typed_value(alloc, value, ty) {
        Ok(parsed) => {
            drop(parsed);
            Ok(true)
        }
        Err(fault) => match fault {
            EntityFault::NoMemory => Err(NoMemory),
            _ => Ok(false),
        },
    }
}

/// Parses a JSON object as a record of this type, as for attributes and contexts.
///
/// # Errors
///
/// In this order:
///
/// - `WrongType` (35): the value is not an object, or the type is not a record.
/// - The error of the first faulty member, in ascending order of keys: `Undeclared` (33), the type has no such field;
///   `WrongType` (35), the member's value is not of the field's type.
/// - `Missing` (34): a required field is missing.
/// - `NoMemory` (1): an allocation failed; possible at any point.
#[tactic(auto, unfolding(crate::specs::Typing::record_in))]
pub fn read_record(alloc: Global, value: &Json, ty: &CedarType) -> Result<Record, EntityFault>
    ensures { ReadsAs EntityFault.NoMemory (λ r. r) result (record_in (cedar_view ty.now) (view value.now)) }
{
    let Some(fields) = record_fields(ty) else {
        return Err(EntityFault::WrongType);
    };
    let Some(members) = value.as_object() else {
        return Err(EntityFault::WrongType);
    };
    let record = typed_members(alloc, members, fields)?;
    if !has_required(fields, value) {
        return Err(EntityFault::Missing);
    }
    Ok(record)
}
