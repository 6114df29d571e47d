//! The parsing and checking of texts under a schema.
ghost use Rattle.std.specs.Prelude.{◌≡◌, IfOk, IfErr};
ghost use Rattle.serde_json.specs.View.{view};
ghost use Rattle.json_words.specs.ReadsAs.{ReadsAs};
ghost use Rattle.plain.specs.AllocationErrors.{OrNoMemory};
ghost use Rattle.decision_texts.specs.Settings.{reported_by};
ghost use Rattle.decision_texts.specs.answer_lines.Refusals.{no_memory};
ghost use Rattle.entity_hierarchy.specs.entities.Entities.{entity_stated_in};
ghost use Rattle.entity_hierarchy.specs.entities.Requests.{ParsesRequest};
ghost use Rattle.entity_hierarchy.specs.schema.Views.{schema_view};
ghost use Rattle.schema_decisions.specs.Refusals.{entity_refusal};
ghost use Rattle.schema_decisions.specs.UnderSchema.{IsRequestFault, reading_under};

use crate::policies::check_each;
use crate::refusal::entity_refusal;
use decision_texts::{Policy, Refusal, Setting};
use entity_hierarchy::{Entity, SchemaActions, read_entity, read_request};
use serde_json::Value;
use std::alloc::Global;
use validator::Schema;
use values::Request;

/// Returns the entity that a JSON value describes, or the value's first error.
fn entity_in(alloc: Global, schema: &Schema, value: &Value) -> Result<Entity, Refusal>
    ensures { ReadsAs no_memory (λ e. e) result
        (reported_by entity_refusal (entity_stated_in (schema_view schema.now) (view value.now))) }
{
    match read_entity(alloc, schema, value) {
        Ok(entity) => Ok(entity),
        Err(fault) => Err(entity_refusal(fault)),
    }
}

/// Returns the request that a JSON value describes, or the value's first error.
fn request_in(alloc: Global, schema: &Schema, value: &Value) -> Result<Request, Refusal>
    ensures read { IfOk result (ParsesRequest (schema_view schema.now) (view value.now)) }
    ensures refused { IfErr result
        (OrNoMemory no_memory (IsRequestFault (schema_view schema.now) (view value.now))) }
{
    match read_request(alloc, schema, value) {
        Ok(request) => Ok(request),
        Err(fault) => Err(entity_refusal(fault)),
    }
}

/// The setting of a decision under a schema: each policy must pass validation, and the schema's actions are added to
/// the entities.
#[derive(Clone, Copy)]
pub struct UnderSchema<'s> {
    /// The schema.
    pub schema: &'s Schema,
}

impl<'s> Setting for UnderSchema<'s> {
    type Actions = SchemaActions<'s>;

    ghost reading = { λ u. reading_under (schema_view u.schema.now) };

    fn actions(&self) -> SchemaActions<'s> {
        SchemaActions::of(self.schema)
    }

    fn check_policies(&self, alloc: Global, policies: &[(String, Policy)]) -> Result<(), Refusal> {
        check_each(alloc, self.schema, policies)
    }

    fn read_entity(&self, alloc: Global, value: &Value) -> Result<Entity, Refusal> {
        entity_in(alloc, self.schema, value)
    }

    fn read_request(&self, alloc: Global, value: &Value) -> Result<Request, Refusal> {
        request_in(alloc, self.schema, value)
    }
}
