//! Parsing of contexts. The environments of an action declare the type of its contexts.
ghost use Rattle.std.specs.Prelude.{◌≢◌, MatchResult};
ghost use Rattle.serde_json.specs.View.{view};
ghost use Rattle.json_words.specs.ReadsAs.{ReadsAs};
ghost use Rattle.schema.specs.Views.{schema_view};
ghost use Rattle.entities.specs.declared.fault.EntityFault.TheVariants as EntityFault;
ghost use Rattle.entities.specs.Contexts.{context_in};
ghost use Rattle.entities.specs.StatedRequests.{DescribesContext, RefusesContext};
ghost use Rattle.entities.specs.inner.EnvironmentSearch.{order_of_action};

use crate::as_stated::contexts_are_read_as_stated;
use crate::environments::{Sought, context_of};
use crate::fault::EntityFault;
use crate::reading::read_fields;
use schema::{EnvironmentKey, Schema};
use serde_json::Value;
use std::alloc::Global;
use std::cmp::Ordering;
use values::{EntityUid, Record};

/// The search for the environments of an action.
impl Sought for EntityUid {
    ghost order = { order_of_action };

    fn compare(&self, place: &EnvironmentKey) -> Ordering {
        place.action.cmp(self)
    }
}

/// Returns the context that a value describes for requests of an action, or the first error.
#[tactic(auto, unfolding(crate::specs::Contexts::context_in))]
fn context_in(
    alloc: Global,
    schema: &Schema,
    action: &EntityUid,
    value: &Value,
) -> Result<Record, EntityFault>
    ensures { ReadsAs EntityFault.NoMemory (λ r. r) result
        (context_in (schema_view schema.now) action.now (view value.now)) }
{
    if value.as_object().is_none() {
        return Err(EntityFault::BadShape);
    }
    match context_of(schema, action) {
        Some(ty) => read_fields(alloc, Some(value), ty),
        None => Err(EntityFault::NotApplicable),
    }
}

/// Parses a JSON object as the context of requests of an action.
///
/// # Errors
///
/// In this order:
///
/// - `BadShape` (30): the value is not an object.
/// - `NotApplicable` (39): no environment has the action.
/// - The error of the first faulty member, in ascending order of keys: `Undeclared` (33), the member is not declared;
///   `WrongType` (35), the member's value is of another type.
/// - `Missing` (34): a required member is missing.
/// - `NoMemory` (1): an allocation failed; possible at any point.
pub fn read_context(
    alloc: Global,
    schema: &Schema,
    action: &EntityUid,
    value: &Value,
) -> Result<Record, EntityFault>
    ensures read { ReadsAs EntityFault.NoMemory (λ r. r) result
        (context_in (schema_view schema.now) action.now (view value.now)) }
    ensures stated { MatchResult result (DescribesContext (schema_view schema.now) action.now (view value.now))
        (λ f. f ≢ EntityFault.NoMemory → RefusesContext (schema_view schema.now) action.now (view value.now) f) }
{
    contexts_are_read_as_stated();
    context_in(alloc, schema, action, value)
}
