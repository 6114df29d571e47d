//! The last output of a run, apart from an explanation, and the status of the run. Each function that writes returns
//! this status, which is 3 if writing fails.
ghost use Rattle.std.specs.Prelude.{◌≡◌, ◌⊎◌, ◌++◌, List, ℕ, codes, is_ok};
ghost use Rattle.std.specs.Process.{exit_status};
ghost use Rattle.program_drills.specs.answer_lines.Refusals.{error_line};
ghost use Rattle.program.specs.declared.device.Stream.TheVariants.{Faults};
ghost use Rattle.program.specs.Events.{Runs};
ghost use Rattle.program.specs.ExplainCommand.{IsWithoutEnd, is_some_text};
ghost use Rattle.program.specs.Reports.{IsReported, IsAnswerReported, IsRefusalReported, IsMemoryReported};
ghost use Rattle.program.specs.Reports.{IsFileReported};
ghost use Rattle.program.specs.Reports.{IsFailureReported, IsFaultReported, IsPrinted, AreLinesReported};
ghost use Rattle.program.specs.Reports.{status_after};

use crate::device::{FileFault, Stream, StreamFailed};
use crate::explaining::is_some_text;
use crate::host::Host;
use program_drills::{Refusal, error_line};
use program_lines::LineFault;
use std::alloc::Global;
use std::process::ExitCode;

/// The status of an answer or help.
pub(crate) const ANSWERED: u8 = 0;

/// The status of an error, or of a rejected policy.
const REFUSED: u8 = 1;

/// The status of arguments that are not a command.
const LINE_FAULT: u8 = 2;

/// The status of a failed file, network or stream.
pub(crate) const FAILED: u8 = 3;

/// The error line of out of memory, a constant, so that it needs no allocation.
const NO_MEMORY_LINE: &[u8; 47] = b"{\"error\":{\"code\":1,\"place\":null,\"within\":null}}";

/// Returns the status of a run: `status`, or 3 if writing failed.
fn status_of(written: Result<(), StreamFailed>, status: u8) -> ExitCode
    ensures { exit_status result ≡ status_after (is_ok written) status }
{
    match written {
        Ok(()) => ExitCode::from(status),
        Err(StreamFailed) => ExitCode::from(FAILED),
    }
}

/// Writes the last line of a report, and returns the status of the run: `status`, or 3 if writing fails.
fn report_last_line<H: Host>(
    host: &mut H,
    stream: Stream,
    label: &str,
    line: &[u8],
    status: u8,
) -> ExitCode
    ensures { Runs H.does host.old host.new
        (λ events. IsReported stream (label.now ++ line.now) status events (exit_status result)) }
{
    let written = host.write_line(stream, label, line);
    status_of(written, status)
}

/// Writes the line of an answer. The status is 0.
pub(crate) fn report_answer<H: Host>(host: &mut H, line: &[u8]) -> ExitCode
    ensures { Runs H.does host.old host.new (λ events. IsAnswerReported line.now events (exit_status result)) }
{
    report_last_line(host, Stream::Answers, "", line, ANSWERED)
}

/// Writes `lines` to standard output, if there are any. The status is 1 if `some_refused`, else 0, and 3 if writing
/// fails.
pub(crate) fn report_lines<H: Host>(host: &mut H, lines: &[u8], some_refused: bool) -> ExitCode
    ensures { Runs H.does host.old host.new
        (λ events. AreLinesReported lines.now some_refused events (exit_status result)) }
{
    let status = if some_refused { REFUSED } else { ANSWERED };
    if lines.is_empty() {
        return ExitCode::from(status);
    }
    report_last_line(host, Stream::Answers, "", lines, status)
}

/// Returns a text without the line feed at its end, if there is one.
pub(crate) fn without_end(text: &str) -> &str
    ensures { IsWithoutEnd text.now result.now }
{
    match text.strip_suffix("\n") {
        Some(line) => line,
        None => text,
    }
}

/// Writes the explanation `text`, if it is not empty. The status is then 1, else 0.
pub(crate) fn report_explained<H: Host>(host: &mut H, text: &str) -> ExitCode
    ensures { Runs H.does host.old host.new (λ events. (line : List ℕ) × IsWithoutEnd text.now line
        × AreLinesReported line (is_some_text text.now) events (exit_status result)) }
{
    let line = without_end(text);
    report_lines(host, line.as_bytes(), is_some_text(text))
}

/// Writes that no code has this number. The status is 2.
pub(crate) fn report_no_code<H: Host>(host: &mut H, word: &str) -> ExitCode
    ensures { Runs H.does host.old host.new (λ events.
        IsReported Faults (codes "error: no code is " ++ word.now) 2 events (exit_status result)) }
{
    report_last_line(
        host,
        Stream::Faults,
        "error: no code is ",
        word.as_bytes(),
        LINE_FAULT,
    )
}

/// Writes the error line of out of memory. The status is 1.
pub(crate) fn report_memory<H: Host>(host: &mut H) -> ExitCode
    ensures { Runs H.does host.old host.new (λ events. IsMemoryReported events (exit_status result)) }
{
    report_last_line(host, Stream::Faults, "", NO_MEMORY_LINE, REFUSED)
}

/// Writes the line of an error or, if that cannot be allocated, the line of out of memory. The status is 1.
pub(crate) fn report_refusal<H: Host>(alloc: Global, host: &mut H, refusal: Refusal) -> ExitCode
    ensures { Runs H.does host.old host.new
        (λ events. IsRefusalReported refusal events (exit_status result)
        ⊎ IsMemoryReported events (exit_status result)) }
{
    match error_line(alloc, refusal) {
        Ok(line) => report_last_line(host, Stream::Faults, "", &line, REFUSED),
        Err(_) => report_memory(host),
    }
}

/// Writes `fault: ` and `name`: the name of a file, an address, or the report of a failed call. The status is 3.
pub(crate) fn report_failure<H: Host>(host: &mut H, name: &str) -> ExitCode
    ensures { Runs H.does host.old host.new (λ events. IsFailureReported name.now events (exit_status result)) }
{
    report_last_line(host, Stream::Faults, "fault: ", name.as_bytes(), FAILED)
}

/// Writes the name of a file that was not read or written (status 3), or the error line of out of memory (status 1).
pub(crate) fn report_file<H: Host>(host: &mut H, name: &str, fault: FileFault) -> ExitCode
    ensures { Runs H.does host.old host.new (λ events. IsFileReported name.now fault events (exit_status result)) }
{
    match fault {
        FileFault::Missing => report_failure(host, name),
        FileFault::Failed => report_failure(host, name),
        FileFault::NoMemory => report_memory(host),
    }
}

/// Writes the text of an error of the arguments, or the requested help.
fn report_text<H: Host>(host: &mut H, stream: Stream, fault: &LineFault, status: u8) -> ExitCode
    ensures { Runs H.does host.old host.new
        (λ events. IsPrinted stream fault.now status events (exit_status result)) }
{
    let written = host.print(stream, fault);
    status_of(written, status)
}

/// Writes why arguments are not a command, or the requested help, and returns the status: 0 for help, 2 for an error of
/// the arguments, 1 if out of memory, and 3 if the stream fails.
pub fn report_words<H: Host>(host: &mut H, fault: &LineFault) -> ExitCode
    ensures { Runs H.does host.old host.new (λ events. IsFaultReported fault.now events (exit_status result)) }
{
    match fault {
        LineFault::Help(_) => report_text(host, Stream::Answers, fault, ANSWERED),
        LineFault::Words(_) => report_text(host, Stream::Faults, fault, LINE_FAULT),
        LineFault::Site => report_text(host, Stream::Faults, fault, LINE_FAULT),
        LineFault::Incomplete => report_text(host, Stream::Faults, fault, LINE_FAULT),
        LineFault::NotText => report_text(host, Stream::Faults, fault, LINE_FAULT),
        LineFault::NoMemory => report_memory(host),
    }
}
