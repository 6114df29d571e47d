//! The exports for C over texts, without a site.
//!
//! Each copies its result to the beginning of `out`, if `out` is long enough, and returns a status and the length of
//! the result. Out of memory has the status 503 and no result.
ghost use Rattle.std.specs.Prelude.{◌≡◌, length};
ghost use Rattle.explanations.specs.Files.{files_of};
ghost use Rattle.schema_decisions.specs.answer_lines.Refusals.{no_memory as memory_refused};
ghost use Rattle.weirbowl.specs.Copies.{copied};
ghost use Rattle.weirbowl.specs.TextCalls.{Decides, DecidesUnder, Checks, Rejects, Returns, no_memory, checked_status};
ghost use Rattle.weirbowl.specs.TextCalls.{Explains, files_named};

use crate::call_result::CallResult;
use crate::copying::copy_out;
use explanations::{Given, NamedText, explain_texts};
use http_replies::error_line;
use schema_decisions::{Refusal, check_texts, decide_texts, decide_under};
use std::alloc::Global;

/// Returns the result of a call that is out of memory: status 503 and length 0.
fn no_memory() -> CallResult
    ensures { result ≡ no_memory }
{
    CallResult {
        status: 503,
        length: 0,
    }
}

/// Copies a text into `out`, if it fits. Returns this status and the text's length.
fn report_text(status: u32, text: &[u8], out: &mut [u8]) -> CallResult
    ensures { Returns status text.now result out.old out.new }
{
    copy_out(text, out);
    CallResult {
        status,
        length: text.len(),
    }
}

/// Copies the line of an error into `out`, if it fits, and returns the status 422. If the error is out of memory, or
/// the line cannot be allocated, copies nothing and returns 503.
fn report_error(alloc: Global, refusal: Refusal, out: &mut [u8]) -> CallResult
    ensures { Rejects (λ f. (f ≡ refusal) × (refusal ≡ memory_refused → ⊥)) result out.old out.new }
{
    if refusal.code == 1 {
        return no_memory();
    }
    match error_line(alloc, refusal) {
        Ok(line) => report_text(422, &line, out),
        Err(_) => no_memory(),
    }
}

/// Returns the status of policies that were checked: 422 if one is rejected, else 200.
fn checked_status(some_rejected: bool) -> u32
    ensures { result ≡ checked_status some_rejected }
{
    if some_rejected { 422 } else { 200 }
}

/// Decides a request over policies and entities, without a schema: copies the answer line (200) or the error line (422)
/// into `out`.
#[unsafe(no_mangle)]
pub extern "C" fn weirbowl_decide(
    alloc: Global,
    policies: &[u8],
    entities: &[u8],
    request: &[u8],
    out: &mut [u8],
) -> CallResult
    ensures { Decides policies.now entities.now request.now result out.old out.new }
{
    match decide_texts(alloc, policies, entities, request) {
        Ok(line) => report_text(200, &line, out),
        Err(refusal) => report_error(alloc, refusal, out),
    }
}

/// Decides a request over policies and entities, under a schema: copies the answer line (200) or the error line (422)
/// into `out`.
#[unsafe(no_mangle)]
pub extern "C" fn weirbowl_decide_under(
    alloc: Global,
    schema: &[u8],
    policies: &[u8],
    entities: &[u8],
    request: &[u8],
    out: &mut [u8],
) -> CallResult
    ensures { DecidesUnder schema.now policies.now entities.now request.now result out.old out.new }
{
    match decide_under(alloc, schema, policies, entities, request) {
        Ok(line) => report_text(200, &line, out),
        Err(refusal) => report_error(alloc, refusal, out),
    }
}

/// Checks a file of policies under a schema: copies a line for each policy (200, or 422 if one is rejected) or the
/// error line (422) into `out`.
#[unsafe(no_mangle)]
pub extern "C" fn weirbowl_check(
    alloc: Global,
    schema: &[u8],
    policies: &[u8],
    out: &mut [u8],
) -> CallResult
    ensures { Checks schema.now policies.now result out.old out.new }
{
    match check_texts(alloc, schema, policies) {
        Ok((lines, some_rejected)) => report_text(checked_status(some_rejected), &lines, out),
        Err(refusal) => report_error(alloc, refusal, out),
    }
}

/// Returns these texts, each under the name that an explanation of it shows.
fn files_named<'t>(
    schema: &'t [u8],
    policies: &'t [u8],
    entities: &'t [u8],
    request: &'t [u8],
) -> Given<'static, 't>
    ensures { files_of result ≡ files_named schema.now policies.now entities.now request.now }
{
    Given {
        schema: Some(NamedText {
            name: "schema",
            text: schema,
        }),
        policies: NamedText {
            name: "policies",
            text: policies,
        },
        entities: Some(NamedText {
            name: "entities",
            text: entities,
        }),
        request: Some(NamedText {
            name: "request",
            text: request,
        }),
    }
}

/// Explains what is rejected in these texts: copies the explanation (200) into `out`. It has no bytes if and only if
/// nothing is rejected.
#[unsafe(no_mangle)]
pub extern "C" fn weirbowl_explain(
    alloc: Global,
    schema: &[u8],
    policies: &[u8],
    entities: &[u8],
    request: &[u8],
    out: &mut [u8],
) -> CallResult
    ensures { Explains schema.now policies.now entities.now request.now result out.old out.new }
{
    match explain_texts(alloc, &files_named(schema, policies, entities, request)) {
        Ok(text) => report_text(200, text.as_bytes(), out),
        Err(_) => no_memory(),
    }
}
