//! The commands `merge` and `pull`.
ghost use Rattle.std.specs.Prelude.{◌≡◌, ◌⊎◌, IfOk, option_map, string_bytes};
ghost use Rattle.std.specs.Process.{exit_status};
ghost use Rattle.explanations.specs.Files.{files_of};
ghost use Rattle.program_drills.specs.answer_lines.Refusals.{no_memory};
ghost use Rattle.program.specs.Events.{Runs};
ghost use Rattle.program.specs.ExplainOption.{IsErrorReported, Explains, IsExplanationWritten};
ghost use Rattle.program.specs.Merging.{IsAtFault, IsMergeText};
ghost use Rattle.program.specs.Reports.{taken_report_line, IsAnswerReported, IsMemoryReported};
ghost use Rattle.program.specs.Runs.{AreMerged, IsMergeRun};
ghost use Rattle.program.specs.Courses.{Stores};
ghost use Rattle.program.specs.Pulling.{IsPulledOver, IsPullRun, IsPullReported};

use crate::device::{Link, NetworkFailed};
use crate::host::Host;
use crate::reading::{lent, read_file, read_if_there};
use crate::rejecting::{refusal_text, schema_given, write_explanation};
use crate::report::{report_answer, report_failure, report_file, report_memory, report_refusal};
use explanations::Given;
use plain::NoMemory;
use program_drills::Refusal;
use program_exchanges::{PullFault, Pulled, merge_texts, pull_over};
use program_lines::{MergeOptions, PullOptions};
use std::alloc::Global;
use std::process::ExitCode;

/// Returns the error, unless it is out of memory.
///
/// # Errors
///
/// - `NoMemory`: the error is out of memory.
fn unless_no_memory(refusal: Refusal) -> Result<Refusal, NoMemory>
    ensures same { IfOk result (λ r. r ≡ refusal) }
    ensures other { IfOk result (λ r. refusal ≡ no_memory → ⊥) }
{
    if refusal.code == 1 {
        return Err(NoMemory);
    }
    Ok(refusal)
}

/// Returns the name of the file of the message at fault: the second if the first merges with itself, and else the
/// first.
fn message_at_fault<'n>(
    alloc: Global,
    options: &MergeOptions<'n>,
    schema: &[u8],
    first: &[u8],
) -> Result<&'n str, NoMemory>
    ensures { IfOk result (λ name. IsAtFault options.now schema.now first.now name.now) }
{
    match merge_texts(alloc, schema, first, first) {
        Ok(_line) => Ok(options.second),
        Err(refusal) => {
            let _other = unless_no_memory(refusal)?;
            Ok(options.first)
        }
    }
}

/// Returns the text that explains a rejected merge: what is rejected in the given files or, if nothing is, the error of
/// the message at fault.
fn merge_text(
    alloc: Global,
    given: &Given<'_, '_>,
    options: &MergeOptions<'_>,
    schema: &[u8],
    first: &[u8],
    refusal: Refusal,
) -> Result<String, NoMemory>
    ensures { IfOk result (λ text.
        IsMergeText (files_of given.now) options.now schema.now first.now refusal (string_bytes text)) }
{
    let name = message_at_fault(alloc, options, schema, first)?;
    refusal_text(alloc, given, Some(name), refusal)
}

/// Explains on standard error why a merge was rejected.
fn explain_merge<H: Host>(
    alloc: Global,
    host: &mut H,
    given: &Given<'_, '_>,
    options: &MergeOptions<'_>,
    schema: &[u8],
    first: &[u8],
    refusal: Refusal,
)
    ensures { Runs H.does host.old host.new (λ events. IsExplanationWritten
        (IsMergeText (files_of given.now) options.now schema.now first.now refusal) events) }
{
    write_explanation(
        host,
        merge_text(alloc, given, options, schema, first, refusal),
    )
}

/// Reports the error of a merge and then, if that is requested, explains it.
fn report_unmerged<H: Host>(
    alloc: Global,
    host: &mut H,
    given: &Given<'_, '_>,
    options: &MergeOptions<'_>,
    schema: &[u8],
    first: &[u8],
    refusal: Refusal,
) -> ExitCode
    ensures { Runs H.does host.old host.new (λ events. Explains options.now.explain
        (IsMergeText (files_of given.now) options.now schema.now first.now refusal) (IsErrorReported refusal)
        events (exit_status result)) }
{
    let end = report_refusal(alloc, host, refusal);
    if !options.explain {
        return end;
    }
    explain_merge(alloc, host, given, options, schema, first, refusal);
    end
}

/// Merges the contents of files, and reports the state or the error.
fn merge_contents<H: Host>(
    alloc: Global,
    host: &mut H,
    options: &MergeOptions<'_>,
    schema: &[u8],
    first: &[u8],
    second: &[u8],
) -> ExitCode
    ensures { Runs H.does host.old host.new
        (λ events. AreMerged options.now schema.now first.now second.now events (exit_status result)) }
{
    match merge_texts(alloc, schema, first, second) {
        Ok(line) => report_answer(host, &line),
        Err(refusal) => {
            let given = schema_given(options.schema, schema);
            report_unmerged(alloc, host, &given, options, schema, first, refusal)
        }
    }
}

/// Reads the schema and the two messages, in this order, and then merges the messages.
pub(crate) fn run_merge<H: Host>(
    alloc: Global,
    host: &mut H,
    options: &MergeOptions<'_>,
) -> ExitCode
    ensures { Runs H.does host.old host.new (λ events. IsMergeRun options.now events (exit_status result)) }
{
    let schema = match read_file(host, options.schema) {
        Ok(bytes) => bytes,
        Err(end) => return end,
    };
    let first = match read_file(host, options.first) {
        Ok(bytes) => bytes,
        Err(end) => return end,
    };
    let second = match read_file(host, options.second) {
        Ok(bytes) => bytes,
        Err(end) => return end,
    };
    merge_contents(alloc, host, options, &schema, &first, &second)
}

/// Returns the line with the number of applied updates.
#[tactic(auto, unfolding(crate::specs::Reports::taken_report_line))]
fn taken_line(alloc: Global, count: usize) -> Result<String, NoMemory>
    ensures { IfOk result (λ line. string_bytes line ≡ taken_report_line count) }
{
    format!(in alloc; "{{\"taken\":{count}}}")
}

/// Writes the new state, and then prints how many updates were applied. If that line cannot be allocated, reports out
/// of memory and does not write the state.
fn write_pulled_state<H: Host>(alloc: Global, host: &mut H, name: &str, pulled: &Pulled) -> ExitCode
    ensures { Runs H.does host.old host.new (λ events.
        Stores name.now pulled.now.state.items (IsAnswerReported (taken_report_line pulled.now.taken)) events
        (exit_status result)
        ⊎ IsMemoryReported events (exit_status result)) }
{
    let Ok(line) = taken_line(alloc, pulled.taken) else {
        return report_memory(host);
    };
    match host.store(name, pulled.state.as_slice()) {
        Ok(()) => report_answer(host, line.as_bytes()),
        Err(fault) => report_file(host, name, fault),
    }
}

/// Reports the outcome of a pull: writes the new state, or reports the error.
fn report_pull<H: Host>(
    alloc: Global,
    host: &mut H,
    options: &PullOptions<'_>,
    came: Result<Pulled, PullFault>,
) -> ExitCode
    ensures { Runs H.does host.old host.new (λ events. IsPullReported options.now came events (exit_status result)) }
{
    match came {
        Ok(pulled) => write_pulled_state(alloc, host, options.state, &pulled),
        Err(PullFault::Network(_)) => report_failure(host, options.from),
        Err(PullFault::Refused(refusal)) => report_refusal(alloc, host, refusal),
    }
}

/// Pulls over an open connection, closes it, and reports the outcome.
fn pull<H: Host>(
    alloc: Global,
    host: &mut H,
    options: &PullOptions<'_>,
    schema: &[u8],
    state: Option<&[u8]>,
    mut link: Link<H::Reader, H::Writer>,
) -> ExitCode
    ensures { Runs H.does host.old host.new (λ events.
        IsPulledOver H.Reader.Source H.Writer.Sink options.now schema.now (option_map (λ s. s.now) state.entry) link
        events (exit_status result)) }
{
    let asked = options.from.as_bytes();
    let came = pull_over(
        alloc,
        schema,
        state,
        asked,
        &mut link.reader,
        &mut link.writer,
    );
    host.close(link);
    report_pull(alloc, host, options, came)
}

/// Reads the schema, and the state, if it exists; then fetches from the site at an address the entries that the state
/// lacks, and writes the state. The name of a site in `options` has no effect: a pull issues no stamps.
pub(crate) fn run_pull<H: Host>(alloc: Global, host: &mut H, options: &PullOptions<'_>) -> ExitCode
    ensures { Runs H.does host.old host.new (λ events.
        IsPullRun H.Reader.Source H.Writer.Sink options.now events (exit_status result)) }
{
    let schema = match read_file(host, options.schema) {
        Ok(bytes) => bytes,
        Err(end) => return end,
    };
    let state = match read_if_there(host, options.state) {
        Ok(found) => found,
        Err(end) => return end,
    };
    match host.connect(options.from) {
        Ok(link) => pull(alloc, host, options, &schema, lent(&state), link),
        Err(NetworkFailed) => report_failure(host, options.from),
    }
}
