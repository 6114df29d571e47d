//! The commands `check` and `decide`.
ghost use Rattle.std.specs.Prelude.{◌≡◌, IfOk, IfErr, option_map};
ghost use Rattle.std.specs.Process.{exit_status};
ghost use Rattle.plain.specs.AllocationErrors.{OrNoMemory};
ghost use Rattle.program_drills.specs.answer_lines.Refusals.{no_memory};
ghost use Rattle.program.specs.Events.{Runs};
ghost use Rattle.explanations.specs.Files.{files_of};
ghost use Rattle.program.specs.Runs.{IsDecided, IsNotDecided, IsDecideRun, IsCheckRun};
ghost use Rattle.program.specs.Runs.{decide_files, check_files, IsDecidedOrRefused, AreChecked};

use crate::explaining::source_of;
use crate::host::Host;
use crate::reading::{lent, read_file, read_if_named};
use crate::rejecting::{report_checked, report_rejected};
use crate::report::report_answer;
use explanations::{Given, NamedText};
use program_drills::Refusal;
use program_lines::{CheckOptions, DecideOptions};
use site_loading::{check_texts, decide_texts, decide_under};
use std::alloc::Global;
use std::process::ExitCode;

/// Returns the line of the answer to a request, from the contents of files, under a schema if there is one.
fn decide(
    alloc: Global,
    schema: Option<&[u8]>,
    policies: &[u8],
    entities: &[u8],
    request: &[u8],
) -> Result<Vec<u8>, Refusal>
    ensures decided { IfOk result (λ line. IsDecided (option_map (λ s. s.now) schema.entry) policies.now entities.now
        request.now line.items) }
    ensures refused { IfErr result (OrNoMemory no_memory (IsNotDecided (option_map (λ s. s.now) schema.entry)
        policies.now entities.now request.now)) }
{
    match schema {
        Some(schema) => decide_under(alloc, schema, policies, entities, request),
        None => decide_texts(alloc, policies, entities, request),
    }
}

/// Returns the files of a decision, for an explanation.
fn decide_given<'n, 't>(
    options: &DecideOptions<'n>,
    schema: Option<&'t [u8]>,
    policies: &'t [u8],
    entities: &'t [u8],
    request: &'t [u8],
) -> Given<'n, 't>
    ensures { files_of result ≡ decide_files options.now (option_map (λ s. s.now) schema.entry) policies.entry.now
        entities.entry.now request.entry.now }
{
    Given {
        schema: source_of(options.schema, schema),
        policies: NamedText {
            name: options.policies,
            text: policies,
        },
        entities: Some(NamedText {
            name: options.entities,
            text: entities,
        }),
        request: Some(NamedText {
            name: options.request,
            text: request,
        }),
    }
}

/// Decides a request over the contents of files, and reports the answer or the error.
fn decide_contents<H: Host>(
    alloc: Global,
    host: &mut H,
    options: &DecideOptions<'_>,
    schema: Option<&[u8]>,
    policies: &[u8],
    entities: &[u8],
    request: &[u8],
) -> ExitCode
    ensures { Runs H.does host.old host.new (λ events. IsDecidedOrRefused options.now
        (option_map (λ s. s.now) schema.entry) policies.now entities.now request.now events (exit_status result)) }
{
    match decide(alloc, schema, policies, entities, request) {
        Ok(line) => report_answer(host, &line),
        Err(refusal) => {
            let given = decide_given(options, schema, policies, entities, request);
            report_rejected(alloc, host, refusal, options.explain, &given, None)
        }
    }
}

/// Reads the schema, if one is named, the policies, the entities and the request, in this order, and then decides the
/// request. If a file cannot be read, reports that and ends.
pub(crate) fn run_decide<H: Host>(
    alloc: Global,
    host: &mut H,
    options: &DecideOptions<'_>,
) -> ExitCode
    ensures { Runs H.does host.old host.new (λ events. IsDecideRun options.now events (exit_status result)) }
{
    let schema = match read_if_named(host, options.schema) {
        Ok(found) => found,
        Err(end) => return end,
    };
    let policies = match read_file(host, options.policies) {
        Ok(bytes) => bytes,
        Err(end) => return end,
    };
    let entities = match read_file(host, options.entities) {
        Ok(bytes) => bytes,
        Err(end) => return end,
    };
    let request = match read_file(host, options.request) {
        Ok(bytes) => bytes,
        Err(end) => return end,
    };
    decide_contents(
        alloc,
        host,
        options,
        lent(&schema),
        &policies,
        &entities,
        &request,
    )
}

/// Returns the files of a check, for an explanation.
fn check_given<'n, 't>(
    options: &CheckOptions<'n>,
    schema: &'t [u8],
    policies: &'t [u8],
) -> Given<'n, 't>
    ensures { files_of result ≡ check_files options.now schema.entry.now policies.entry.now }
{
    Given {
        schema: Some(NamedText {
            name: options.schema,
            text: schema,
        }),
        policies: NamedText {
            name: options.policies,
            text: policies,
        },
        entities: None,
        request: None,
    }
}

/// Checks the contents of files, and reports the lines of the policies or the error.
fn check_contents<H: Host>(
    alloc: Global,
    host: &mut H,
    options: &CheckOptions<'_>,
    schema: &[u8],
    policies: &[u8],
) -> ExitCode
    ensures { Runs H.does host.old host.new
        (λ events. AreChecked options.now schema.now policies.now events (exit_status result)) }
{
    let given = check_given(options, schema, policies);
    match check_texts(alloc, schema, policies) {
        Ok((lines, some_refused)) => {
            report_checked(alloc, host, &lines, some_refused, options.explain, &given)
        }
        Err(refusal) => report_rejected(alloc, host, refusal, options.explain, &given, None),
    }
}

/// Reads the schema and the policies, in this order, and then checks the policies. If a file cannot be read,
/// reports that and ends.
pub(crate) fn run_check<H: Host>(
    alloc: Global,
    host: &mut H,
    options: &CheckOptions<'_>,
) -> ExitCode
    ensures { Runs H.does host.old host.new (λ events. IsCheckRun options.now events (exit_status result)) }
{
    let schema = match read_file(host, options.schema) {
        Ok(bytes) => bytes,
        Err(end) => return end,
    };
    let policies = match read_file(host, options.policies) {
        Ok(bytes) => bytes,
        Err(end) => return end,
    };
    check_contents(alloc, host, options, &schema, &policies)
}
