//! The setting without a schema.
ghost use Rattle.std.specs.Prelude.{◌≡◌, IfOk, IfErr};
ghost use Rattle.serde_json.specs.View.{view};
ghost use Rattle.json_words.specs.ReadsAs.{ReadsAs};
ghost use Rattle.plain.specs.AllocationErrors.{OrNoMemory};
ghost use Rattle.answer_lines.specs.Refusals.{no_memory};
ghost use Rattle.decision_texts.specs.BareReading.{refusal_of, DescribesNoRequest, bare_reading};
ghost use Rattle.decision_texts.specs.BareRequests.{DescribesBareRequest};
ghost use Rattle.decision_texts.specs.Bare.{entity_of};
ghost use Rattle.decision_texts.specs.Settings.{reported_by};

use crate::bare::{ShapeFault, read_entity};
use crate::request::read_request;
use crate::setting::Setting;
use answer_lines::{Policy, Refusal};
use entity_data::{Entity, NoActions};
use serde_json::Value;
use std::alloc::Global;
use values::Request;

/// Returns the reported error for an error of parsing, without a place.
fn refusal_of(fault: ShapeFault) -> Refusal
    ensures { result ≡ refusal_of fault }
{
    match fault {
        ShapeFault::NoMemory => Refusal::no_memory(),
        ShapeFault::BadShape => Refusal::bad_shape(None),
    }
}

/// Returns the entity that a value describes, or the error.
fn entity_in(alloc: Global, value: &Value) -> Result<Entity, Refusal>
    ensures { ReadsAs no_memory (λ e. e) result (reported_by refusal_of (entity_of (view value.now))) }
{
    match read_entity(alloc, value) {
        Ok(entity) => Ok(entity),
        Err(fault) => Err(refusal_of(fault)),
    }
}

/// Returns the request that a value describes, or the error.
fn request_in(alloc: Global, value: &Value) -> Result<Request, Refusal>
    ensures read { IfOk result (DescribesBareRequest (view value.now)) }
    ensures refused { IfErr result (OrNoMemory no_memory (DescribesNoRequest (view value.now))) }
{
    match read_request(alloc, value) {
        Ok(request) => Ok(request),
        Err(fault) => Err(refusal_of(fault)),
    }
}

/// The setting without a schema: all policies are admitted, an entity has no attributes, and no action is declared.
pub(crate) struct NoSchema;

impl Setting for NoSchema {
    type Actions = NoActions;

    ghost reading = { λ _. bare_reading };

    fn actions(&self) -> NoActions {
        NoActions
    }

    fn check_policies(
        &self,
        _alloc: Global,
        _policies: &[(String, Policy)],
    ) -> Result<(), Refusal> {
        Ok(())
    }

    fn read_entity(&self, alloc: Global, value: &Value) -> Result<Entity, Refusal> {
        entity_in(alloc, value)
    }

    fn read_request(&self, alloc: Global, value: &Value) -> Result<Request, Refusal> {
        request_in(alloc, value)
    }
}
