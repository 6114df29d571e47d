//! Parsing of requests. The environment with the request's action and the types of its principal and resource declares
//! the type of the context.
ghost use Rattle.std.specs.Prelude.{◌≡◌, ◌≢◌, IfOk, IfErr, MatchResult};
ghost use Rattle.serde_json.specs.View.{view};
ghost use Rattle.json_words.specs.ReadsAs.{ReadsAs};
ghost use Rattle.schema.specs.Views.{schema_view};
ghost use Rattle.values.specs.declared.entity_uid.EntityUid.{EntityUid as PlainUid};
ghost use Rattle.entities.specs.declared.requests.Asked.{Asked as PlainAsked};
ghost use Rattle.entities.specs.declared.fault.EntityFault.TheVariants as EntityFault;
ghost use Rattle.entities.specs.inner.EnvironmentSearch.{order_of_asked};
ghost use Rattle.entities.specs.StatedRequests.{DescribesRequest, RefusesRequest};
ghost use Rattle.entities.specs.Requests.{NamesAt, Asks, context_asked, ParsesRequest, RequestRefused};

use crate::as_stated::requests_are_read_as_stated;
use crate::environments::{Sought, context_of};
use crate::fault::EntityFault;
use crate::reading::read_fields;
use crate::stated::is_absent_or_object;
use entity_uids::read_name;
use schema::{EnvironmentKey, Schema};
use serde_json::Value;
use std::alloc::Global;
use std::cmp::Ordering;
use values::{EntityUid, Record, Request};

/// The principal, action and resource of a request.
#[derive(Drop)]
pub struct Asked {
    pub principal: EntityUid,
    pub action: EntityUid,
    pub resource: EntityUid,
}

/// Returns the uid of the entity that the value at a key names; `BadShape` if the key is absent or its value names no
/// entity.
fn read_name_at(alloc: Global, value: &Value, key: &str) -> Result<EntityUid, EntityFault>
    ensures read { IfOk result (NamesAt key.now (view value.now)) }
    ensures refused { IfErr result (λ f. f ≢ EntityFault.NoMemory
        → (f ≡ EntityFault.BadShape) × ((uid : PlainUid) → NamesAt key.now (view value.now) uid → ⊥)) }
{
    let Some(found) = value.get(key) else {
        return Err(EntityFault::BadShape);
    };
    match read_name(alloc, found)? {
        Some(uid) => Ok(uid),
        None => Err(EntityFault::BadShape),
    }
}

/// Returns the principal, action and resource of a request; `BadShape` if the value does not have the form of a
/// request.
#[tactic(auto, using(crate::proofs::RequestLemmas::no_principal, crate::proofs::RequestLemmas::no_action, crate::proofs::RequestLemmas::no_resource, crate::proofs::RequestLemmas::no_context))]
fn read_asked(alloc: Global, value: &Value) -> Result<Asked, EntityFault>
    ensures read { IfOk result (Asks (view value.now)) }
    ensures refused { IfErr result (λ f. f ≢ EntityFault.NoMemory
        → (f ≡ EntityFault.BadShape) × ((asked : PlainAsked) → Asks (view value.now) asked → ⊥)) }
{
    let principal = read_name_at(alloc, value, "principal")?;
    let action = read_name_at(alloc, value, "action")?;
    let resource = read_name_at(alloc, value, "resource")?;
    if !is_absent_or_object(value.get("context")) {
        return Err(EntityFault::BadShape);
    }
    Ok(Asked {
        principal,
        action,
        resource,
    })
}

/// The search for the environment of a request.
impl Sought for Asked {
    ghost order = { order_of_asked };

    fn compare(&self, place: &EnvironmentKey) -> Ordering {
        let principals = place.principal.cmp(&self.principal.type_name);
        let resources = place.resource.cmp(&self.resource.type_name);
        place
            .action
            .cmp(&self.action)
            .then(principals.then(resources))
    }
}

/// Returns the context that `value`, the JSON of the request `asked`, describes. The error is `NotApplicable` if the
/// schema has no environment of the request, else the first error of the context.
#[tactic(auto, unfolding(crate::specs::Requests::context_asked))]
fn read_asked_context(
    alloc: Global,
    schema: &Schema,
    asked: &Asked,
    value: &Value,
) -> Result<Record, EntityFault>
    ensures { ReadsAs EntityFault.NoMemory (λ r. r) result
        (context_asked (schema_view schema.now) asked.now (view value.now)) }
{
    match context_of(schema, asked) {
        Some(ty) => read_fields(alloc, value.get("context"), ty),
        None => Err(EntityFault::NotApplicable),
    }
}

/// Returns the request that a value describes, or the first error.
fn request_in(alloc: Global, schema: &Schema, value: &Value) -> Result<Request, EntityFault>
    ensures read { IfOk result (ParsesRequest (schema_view schema.now) (view value.now)) }
    ensures refused { IfErr result
        (λ f. f ≢ EntityFault.NoMemory → RequestRefused (schema_view schema.now) (view value.now) f) }
{
    let asked = read_asked(alloc, value)?;
    let context = read_asked_context(alloc, schema, &asked, value)?;
    let Asked {
        principal,
        action,
        resource,
    } = asked;
    Ok(Request {
        principal,
        action,
        resource,
        context,
    })
}

/// Parses a JSON value as a request.
///
/// Such a value is `{"principal":"User::\"alice\"","action":..,"resource":..,"context":{..}}`. An absent `context` is
/// empty.
///
/// # Errors
///
/// In this order:
///
/// - `BadShape` (30): the value does not have the form of a request (docs/formats.md).
/// - `NotApplicable` (39): the action is not declared, or does not apply to the types of principal and resource.
/// - The error of the first faulty member of the context, in ascending order of keys: `Undeclared` (33), the member is
///   not declared; `WrongType` (35), the member's value is of another type.
/// - `Missing` (34): a required member of the context is missing.
/// - `NoMemory` (1): an allocation failed; possible at any point.
pub fn read_request(alloc: Global, schema: &Schema, value: &Value) -> Result<Request, EntityFault>
    ensures read { IfOk result (ParsesRequest (schema_view schema.now) (view value.now)) }
    ensures refused { IfErr result
        (λ f. f ≢ EntityFault.NoMemory → RequestRefused (schema_view schema.now) (view value.now) f) }
    ensures stated { MatchResult result (DescribesRequest (schema_view schema.now) (view value.now))
        (λ f. f ≢ EntityFault.NoMemory → RefusesRequest (schema_view schema.now) (view value.now) f) }
{
    requests_are_read_as_stated();
    request_in(alloc, schema, value)
}
