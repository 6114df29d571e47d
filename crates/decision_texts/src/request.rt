//! Parsing of requests from JSON without a schema.
ghost use Rattle.std.specs.Prelude.{◌≡◌, IfOk, IfErr};
ghost use Rattle.serde_json.specs.View.{view};
ghost use Rattle.values.specs.declared.entity_uid.EntityUid.{EntityUid as PlainUid};
ghost use Rattle.values.specs.declared.request.Request.{Request as PlainRequest};
ghost use Rattle.decision_texts.specs.BareRequests.{NamesAt, DescribesBareRequest};
ghost use Rattle.decision_texts.specs.declared.bare.ShapeFault.TheVariants as ShapeFault;

use crate::bare::{ShapeFault, is_absent_or_empty};
use answer_lines::read_name;
use plain::pair_with;
use serde_json::Value;
use std::alloc::Global;
use values::{EntityUid, Record, Request};

/// Returns the uid that the value at a key names.
///
/// # Errors
///
/// - `BadShape`: there is no such key, or its value does not name an entity.
/// - `NoMemory`: an allocation failed; possible at any point.
fn read_name_at(alloc: Global, value: &Value, key: &str) -> Result<EntityUid, ShapeFault>
    ensures read { IfOk result (NamesAt key.now (view value.now)) }
    ensures refused { IfErr result
        (λ e. e ≡ ShapeFault.BadShape → (uid : PlainUid) → NamesAt key.now (view value.now) uid → ⊥) }
{
    let Some(found) = value.get(key) else {
        return Err(ShapeFault::BadShape);
    };
    match read_name(alloc, found)? {
        Some(uid) => Ok(uid),
        None => Err(ShapeFault::BadShape),
    }
}

/// Returns the request that a JSON value describes.
///
/// # Errors
///
/// - `BadShape`: `principal`, `action` or `resource` is absent or does not name an entity, or `context` is neither
///   absent nor `{}`.
/// - `NoMemory`: an allocation failed; possible at any point.
#[tactic(auto, using(crate::proofs::RequestLemmas::no_principal, crate::proofs::RequestLemmas::no_action, crate::proofs::RequestLemmas::no_resource, crate::proofs::RequestLemmas::no_context))]
pub(crate) fn read_request(alloc: Global, value: &Value) -> Result<Request, ShapeFault>
    ensures read { IfOk result (DescribesBareRequest (view value.now)) }
    ensures refused { IfErr result
        (λ e. e ≡ ShapeFault.BadShape → (q : PlainRequest) → DescribesBareRequest (view value.now) q → ⊥) }
{
    let principal = read_name_at(alloc, value, "principal")?;
    let (principal, action) = pair_with(principal, read_name_at(alloc, value, "action"))?;
    let resource = read_name_at(alloc, value, "resource");
    let ((principal, action), resource) = pair_with((principal, action), resource)?;
    if !is_absent_or_empty(value.get("context")) {
        drop((principal, action, resource));
        return Err(ShapeFault::BadShape);
    }
    Ok(Request {
        principal,
        action,
        resource,
        context: Record::new(alloc),
    })
}
