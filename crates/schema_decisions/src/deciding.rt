//! The answer to four texts: a schema, policies, entities and a request.
ghost use Rattle.std.specs.Prelude.{IfOk, IfErr, MatchResult};
ghost use Rattle.plain.specs.AllocationErrors.{OrNoMemory};
ghost use Rattle.decision_texts.specs.answer_lines.Refusals.{no_memory};
ghost use Rattle.schema_decisions.specs.Decisions.{IsDecided, IsSchemaDecisionRefused};
ghost use Rattle.schema_decisions.specs.StatedDecisions.{DescribesSchemaDecision, RejectsSchemaDecision};

use crate::laws::decisions_are_as_stated;
use crate::reading::parse_schema;
use crate::under_schema::UnderSchema;
use decision_texts::{Refusal, decide_under_setting};
use std::alloc::Global;

/// Returns the line of the answer to a request under a schema, over a file of policies and an array of entities.
///
/// The schema's actions are added to the entities. Parents of an entity may be absent from the array. A cycle of
/// entities is not an error: the answer is then a denial that reports a cycle.
///
/// # Errors
///
/// In this order:
///
/// - 20 to 25, without a place: the schema is rejected.
/// - 10 to 19, at a byte offset: the file of policies is rejected.
/// - 40 to 46, at the index of a policy: the first policy of the file that does not pass validation.
/// - 30, without a place: the text of the entities is not a JSON array.
/// - 30 to 38: the error of the first rejected entity, at its index in the array: its own error, or 30 if an earlier
///   entity has its uid.
/// - 30, 33, 34, 35 or 39, without a place: the request is rejected.
/// - `NoMemory` (1): an allocation failed; possible at any point.
///
/// Source: Cedar reference guide, "Authorization" and "Policy validation".
pub fn decide_under(
    alloc: Global,
    schema: &[u8],
    policies: &[u8],
    entities: &[u8],
    request: &[u8],
) -> Result<Vec<u8>, Refusal>
    ensures decided { IfOk result (λ line. IsDecided schema.now policies.now entities.now request.now line.items) }
    ensures refused { IfErr result
        (OrNoMemory no_memory (IsSchemaDecisionRefused schema.now policies.now entities.now request.now)) }
    ensures stated { MatchResult result
        (λ line. DescribesSchemaDecision schema.now policies.now entities.now request.now line.items)
        (OrNoMemory no_memory (RejectsSchemaDecision schema.now policies.now entities.now request.now)) }
{
    decisions_are_as_stated();
    let schema = parse_schema(alloc, schema)?;
    let setting = UnderSchema { schema: &schema };
    decide_under_setting(alloc, &setting, policies, entities, request)
}
