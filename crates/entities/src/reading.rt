//! Parsing of entities under a schema.
ghost use Rattle.std.specs.Prelude.{◌≡◌, ◌≢◌, MatchResult, option_map};
ghost use Rattle.serde_json.specs.View.{view};
ghost use Rattle.json_words.specs.ReadsAs.{ReadsAs, AlwaysReadsAs};
ghost use Rattle.schema_types.specs.CedarViews.{cedar_view};
ghost use Rattle.schema.specs.Views.{schema_view};
ghost use Rattle.entities.specs.Typing.{record_in};
ghost use Rattle.entities.specs.declared.fault.EntityFault.TheVariants as EntityFault;
ghost use Rattle.entities.specs.EntityForms.{or_empty};
ghost use Rattle.entities.specs.StatedEntities.{DescribesEntity, RefusesEntity};
ghost use Rattle.entities.specs.Entities.{is_action_type, shape_of, attributes_in, entity_stated_in};

use crate::as_stated::entities_are_read_as_stated;
use crate::fault::EntityFault;
use crate::parents::checked_parents;
use crate::stated::{StatedEntity, is_absent_or_empty, read_stated};
use crate::value_reading::read_record;
use entity_data::Entity;
use schema::Schema;
use schema_types::CedarType;
use serde_json::{Map, Value};
use std::alloc::Global;
use values::{Record, TypeName};

/// Returns whether the last word of a type's name is `Action`.
fn is_action_type(name: &TypeName) -> bool
    ensures { result ≡ is_action_type name.now }
{
    let text = name.as_str();
    text == "Action" || text.as_bytes().ends_with(b"::Action")
}

/// Returns the shape of an entity type: the record type of its entities' attributes. Returns `ActionEntity` for an
/// action type, else `UnknownType` if the type is not declared.
#[tactic(auto, unfolding(crate::specs::Entities::shape_of))]
fn shape_of<'s>(schema: &'s Schema, name: &TypeName) -> Result<&'s CedarType, EntityFault>
    ensures { AlwaysReadsAs (λ t. cedar_view t.now) result (shape_of (schema_view schema.now) name.now) }
{
    if is_action_type(name) {
        return Err(EntityFault::ActionEntity);
    }
    match schema.entity_type(name) {
        Some(entity_type) => Ok(&entity_type.shape),
        None => Err(EntityFault::UnknownType),
    }
}

/// Returns the record of this type that a value describes, or the first error. An absent value counts as an empty
/// object.
pub(crate) fn read_fields(
    alloc: Global,
    found: Option<&Value>,
    ty: &CedarType,
) -> Result<Record, EntityFault>
    ensures { ReadsAs EntityFault.NoMemory (λ r. r) result
        (record_in (cedar_view ty.now) (or_empty (option_map (λ v. view v.now) found.entry))) }
{
    match found {
        Some(value) => read_record(alloc, value, ty),
        None => {
            let empty = Value::Object(Map::new(alloc));
            read_record(alloc, &empty, ty)
        }
    }
}

/// Returns the attributes of the entity of the type `name` that `value` describes, or the first error: of the type,
/// then of the tags, then of the attributes.
#[tactic(auto, unfolding(crate::specs::Entities::attributes_in))]
fn read_attributes(
    alloc: Global,
    schema: &Schema,
    name: &TypeName,
    value: &Value,
) -> Result<Record, EntityFault>
    ensures { ReadsAs EntityFault.NoMemory (λ r. r) result
        (attributes_in (schema_view schema.now) name.now (view value.now)) }
{
    let shape = shape_of(schema, name)?;
    if !is_absent_or_empty(value.get("tags")) {
        return Err(EntityFault::TagsLeftOut);
    }
    read_fields(alloc, value.get("attrs"), shape)
}

/// Returns the entity that a value describes, or the first error: of its form, then of its type, its tags, its
/// attributes and its parents.
#[tactic(auto, unfolding(crate::specs::Entities::entity_stated_in))]
fn entity_in(alloc: Global, schema: &Schema, value: &Value) -> Result<Entity, EntityFault>
    ensures { ReadsAs EntityFault.NoMemory (λ e. e) result
        (entity_stated_in (schema_view schema.now) (view value.now)) }
{
    let StatedEntity { uid, parents } = read_stated(alloc, value)?;
    let attrs = read_attributes(alloc, schema, &uid.type_name, value)?;
    let parents = checked_parents(schema, &uid, parents)?;
    Ok(Entity {
        uid,
        attrs,
        parents,
    })
}

/// Parses a JSON value as an entity: `{"uid":{"type":"User","id":"alice"},"attrs":{..},"parents":[..]}`. Absent
/// `attrs`, `parents` and `tags` are empty, and further keys of the entity are ignored.
///
/// # Errors
///
/// In this order:
///
/// - `BadShape` (30): the value does not have the form of an entity.
/// - `ActionEntity` (32): the entity's type is an action type.
/// - `UnknownType` (31): the entity's type is not declared.
/// - `TagsLeftOut` (38): the entity has tags.
/// - For the first faulty attribute, ascending by key: `Undeclared` (33), the attribute is not declared; `WrongType`
///   (35), its value is not of its declared type.
/// - `Missing` (34): a required attribute is missing.
/// - For the first faulty parent in the array `parents`: `SelfParent` (37), the parent is the entity itself;
///   `BadParent` (36), the entity may not have a parent of this type.
/// - `NoMemory` (1): an allocation failed; possible at any point.
pub fn read_entity(alloc: Global, schema: &Schema, value: &Value) -> Result<Entity, EntityFault>
    ensures read { ReadsAs EntityFault.NoMemory (λ e. e) result
        (entity_stated_in (schema_view schema.now) (view value.now)) }
    ensures stated { MatchResult result (DescribesEntity (schema_view schema.now) (view value.now))
        (λ f. f ≢ EntityFault.NoMemory → RefusesEntity (schema_view schema.now) (view value.now) f) }
{
    entities_are_read_as_stated();
    entity_in(alloc, schema, value)
}
