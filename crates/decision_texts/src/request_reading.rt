//! Parsing of the request in a text.
ghost use Rattle.std.specs.Prelude.{IfOk, IfErr};
ghost use Rattle.plain.specs.AllocationErrors.{OrNoMemory};
ghost use Rattle.answer_lines.specs.Refusals.{no_memory};
ghost use Rattle.decision_texts.specs.Requests.{IsRequestText, IsRequestRefused};

use crate::setting::Setting;
use answer_lines::Refusal;
use json_words::read_json;
use std::alloc::Global;
use values::Request;

/// Returns the request that bytes describe, or the error, which has no place.
pub(crate) fn request_in<S: Setting>(
    alloc: Global,
    setting: &S,
    text: &[u8],
) -> Result<Request, Refusal>
    ensures read { IfOk result (IsRequestText (S.reading setting.now) text.now) }
    ensures refused { IfErr result (OrNoMemory no_memory (IsRequestRefused (S.reading setting.now) text.now)) }
{
    match read_json(alloc, text)? {
        Some(value) => setting.read_request(alloc, &value),
        None => Err(Refusal::bad_shape(None)),
    }
}
