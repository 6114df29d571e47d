//! Explains rejected entities and requests.
ghost use Rattle.std.specs.Prelude.{◌≡◌, OnOk, IfErr, option_map, string_bytes};
ghost use Rattle.plain.specs.AllocationErrors.{OrNoMemory};
ghost use Rattle.schema_decisions.specs.schema.Views.{schema_view};
ghost use Rattle.schema_decisions.specs.answer_lines.Refusals.{no_memory};
ghost use Rattle.explanations.specs.Files.{file_of};
ghost use Rattle.explanations.specs.TextParts.{AppendsSome};
ghost use Rattle.explanations.specs.EntitiesAndRequests.{IsRequestRead, IsRequestRefused};
ghost use Rattle.explanations.specs.EntitiesAndRequests.{AreEntitiesExplained, IsRequestExplained};

use crate::given::NamedText;
use crate::part_naming::{entity_part, request_part};
use crate::text_parts::push_refusal;
use entities::Schema;
use plain::NoMemory;
use schema_decisions::{Refusal, UnderSchema, check_entities, decide_texts, decide_under};
use std::alloc::Global;

/// A request that parses without a schema.
const ANY_REQUEST: &[u8] =
    b"{\"principal\":{\"type\":\"A\",\"id\":\"\"},\"action\":{\"type\":\"A\",\"id\":\"\"},\
      \"resource\":{\"type\":\"A\",\"id\":\"\"}}";

/// Appends why the entities are rejected, if there is a file of entities and it is rejected; under a schema, with the
/// part at fault.
pub(crate) fn explain_entities(
    alloc: Global,
    out: &mut String,
    schema: Option<&Schema>,
    entities: Option<NamedText<'_, '_>>,
) -> Result<(), NoMemory>
    ensures { OnOk result (AppendsSome
        (AreEntitiesExplained (option_map (λ s. schema_view s.now) schema.entry) (option_map file_of entities.entry))
        (string_bytes out.old) (string_bytes out.new)) }
{
    let Some(source) = entities else {
        return Ok(());
    };
    let Some(schema) = schema else {
        return match decide_texts(alloc, b"", source.text, ANY_REQUEST) {
            Ok(_line) => Ok(()),
            Err(refusal) => push_refusal(out, source.name, refusal, ""),
        };
    };
    match check_entities(alloc, &UnderSchema { schema }, source.text) {
        Ok(()) => Ok(()),
        Err(refusal) => {
            let words = entity_part(alloc, schema, source.text, refusal.place_number())?;
            push_refusal(out, source.name, refusal, words.as_str())
        }
    }
}

/// Checks that a text is a request, under the schema that the file `schema` describes if there is one.
fn check_request(
    alloc: Global,
    schema: Option<NamedText<'_, '_>>,
    text: &[u8],
) -> Result<(), Refusal>
    ensures read { OnOk result (IsRequestRead (option_map (λ f. f.text) (option_map file_of schema.entry)) text.now) }
    ensures refused { IfErr result (OrNoMemory no_memory
        (IsRequestRefused (option_map (λ f. f.text) (option_map file_of schema.entry)) text.now)) }
{
    match schema {
        Some(schema) => decide_under(alloc, schema.text, b"", b"[]", text)?,
        None => decide_texts(alloc, b"", b"[]", text)?,
    };
    Ok(())
}

/// Appends why the request is rejected, if there is one and it is rejected; under a schema, with the part at fault.
/// `schema` is the schema that the file `stated` describes.
pub(crate) fn explain_request(
    alloc: Global,
    out: &mut String,
    schema: Option<&Schema>,
    stated: Option<NamedText<'_, '_>>,
    request: Option<NamedText<'_, '_>>,
) -> Result<(), NoMemory>
    ensures { OnOk result (AppendsSome (IsRequestExplained (option_map (λ s. schema_view s.now) schema.entry)
        (option_map (λ f. f.text) (option_map file_of stated.entry)) (option_map file_of request.entry))
        (string_bytes out.old) (string_bytes out.new)) }
{
    let Some(source) = request else {
        return Ok(());
    };
    match check_request(alloc, stated, source.text) {
        Ok(()) => Ok(()),
        Err(refusal) => match schema {
            Some(schema) => {
                let words = request_part(alloc, schema, source.text)?;
                push_refusal(out, source.name, refusal, words.as_str())
            }
            None => push_refusal(out, source.name, refusal, ""),
        },
    }
}
