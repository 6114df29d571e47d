//! The parsing of a schema's text.
ghost use Rattle.std.specs.Prelude.{◌≡◌, IfOk, IfErr};
ghost use Rattle.entity_hierarchy.specs.schema.Schemas.{IsSchemaOf};
ghost use Rattle.entity_hierarchy.specs.schema.Views.{schema_view};
ghost use Rattle.decision_texts.specs.answer_lines.Refusals.{no_memory};
ghost use Rattle.schema_decisions.specs.Checks.{IsSchemaRefused};

use crate::check_refusals::schema_refusal;
use decision_texts::Refusal;
use std::alloc::Global;
use validator::{Schema, read_schema};

/// Parses the schema that `bytes` describe.
///
/// # Errors
///
/// - 20 to 25, without a place: the first error of the schema.
/// - `NoMemory` (1): an allocation failed; possible at any point.
pub fn parse_schema(alloc: Global, bytes: &[u8]) -> Result<Schema, Refusal>
    ensures read { IfOk result (λ s. IsSchemaOf bytes.now (schema_view s)) }
    ensures refused { IfErr result (λ r. (r ≡ no_memory → ⊥) → IsSchemaRefused bytes.now r) }
{
    match read_schema(alloc, bytes) {
        Ok(schema) => Ok(schema),
        Err(fault) => Err(schema_refusal(fault)),
    }
}
