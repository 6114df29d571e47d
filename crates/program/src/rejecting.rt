//! Reports on errors, each followed by an explanation if that is requested.
ghost use Rattle.std.specs.Prelude.{◌≡◌, ◌&&◌, IfOk, option_map, string_bytes};
ghost use Rattle.std.specs.Process.{exit_status};
ghost use Rattle.explanations.specs.FileExplanations.{IsExplained};
ghost use Rattle.explanations.specs.Files.{file_of, files_of};
ghost use Rattle.program.specs.Events.{Runs};
ghost use Rattle.program.specs.ExplainOption.{IsCodeText, rejected_file, IsErrorText, IsRefusalText, IsTextWritten};
ghost use Rattle.program.specs.ExplainOption.{IsErrorReported, Explains};
ghost use Rattle.program.specs.ExplainOption.{IsExplanationWritten, policies_of, schema_files};
ghost use Rattle.program.specs.inner.WrittenTexts.{IsMadeWritten};
ghost use Rattle.program.specs.Reports.{AreLinesReported};

use crate::device::Stream;
use crate::explaining::is_some_text;
use crate::host::Host;
use crate::report::{report_lines, report_refusal, without_end};
use explanations::{Given, NamedText, code_text, explain_message, explain_texts, words_of};
use plain::NoMemory;
use program_drills::Refusal;
use std::alloc::Global;
use std::process::ExitCode;

/// The line in place of an explanation that could not be allocated.
const NO_EXPLANATION: &str = "explanation: out of memory";

/// Returns the given policies; if they are absent, an empty file.
pub(crate) fn policies_of<'n, 't>(source: Option<NamedText<'n, 't>>) -> NamedText<'n, 't>
    ensures { file_of result ≡ policies_of (option_map file_of source.entry) }
{
    match source {
        Some(source) => source,
        None => NamedText {
            name: "",
            text: b"",
        },
    }
}

/// Returns the files for the explanation of a rejected schema or message: the schema alone.
pub(crate) fn schema_given<'n, 't>(name: &'n str, schema: &'t [u8]) -> Given<'n, 't>
    ensures { files_of result ≡ schema_files name.entry.now schema.entry.now }
{
    Given {
        schema: Some(NamedText { name, text: schema }),
        policies: policies_of(None),
        entities: None,
        request: None,
    }
}

/// Writes the lines of a text to standard error.
fn write_text_lines<H: Host>(host: &mut H, text: &str)
    ensures { Runs H.does host.old host.new (λ events. IsTextWritten text.now events) }
{
    let lines = without_end(text);
    if lines.is_empty() {
        return;
    }
    let _ = host.write_line(Stream::Faults, "", lines.as_bytes());
}

/// Writes a text to standard error, or that it could not be allocated.
pub(crate) fn write_explanation<H: Host>(host: &mut H, made: Result<String, NoMemory>)
    ensures { Runs H.does host.old host.new (λ events. IsMadeWritten made events) }
{
    match made {
        Ok(text) => write_text_lines(host, text.as_str()),
        Err(_) => {
            let _ = host.write_line(Stream::Faults, "", NO_EXPLANATION.as_bytes());
        }
    }
}

/// Returns the text on a code, which is empty if there is no such code.
fn text_on(alloc: Global, code: u8) -> Result<String, NoMemory>
    ensures { IfOk result (λ text. IsCodeText code (string_bytes text)) }
{
    match words_of(u16::from(code)) {
        Some(words) => code_text(alloc, words),
        None => Ok(String::new(alloc)),
    }
}

/// Returns the file of the message that may be rejected, unless the error with this code is out of memory.
fn rejected_file(message: Option<&str>, code: u8) -> Option<&str>
    ensures { option_map (λ m. m.now) result ≡ rejected_file (option_map (λ m. m.now) message.entry) code }
{
    if code == 1 { None } else { message }
}

/// Returns the text that explains `refusal` as the error of the message in the file `message` or, without a file or if
/// `refusal` is out of memory, by the text on its code.
fn error_text(alloc: Global, message: Option<&str>, refusal: Refusal) -> Result<String, NoMemory>
    ensures { IfOk result
        (λ text. IsErrorText (option_map (λ m. m.now) message.entry) refusal (string_bytes text)) }
{
    match rejected_file(message, refusal.code) {
        Some(file) => explain_message(alloc, file, refusal),
        None => text_on(alloc, refusal.code),
    }
}

/// Returns the text that explains what is rejected in the given files or, if nothing is, `refusal`, as [`error_text`]
/// does with the file `message`.
pub(crate) fn refusal_text(
    alloc: Global,
    given: &Given<'_, '_>,
    message: Option<&str>,
    refusal: Refusal,
) -> Result<String, NoMemory>
    ensures { IfOk result (λ text.
        IsRefusalText (files_of given.now) (option_map (λ m. m.now) message.entry) refusal (string_bytes text)) }
{
    let text = explain_texts(alloc, given)?;
    if is_some_text(text.as_str()) {
        return Ok(text);
    }
    error_text(alloc, message, refusal)
}

/// Explains on standard error what is rejected in the given files or, if nothing is, `refusal`, by [`refusal_text`]
/// with the file `message`.
fn explain_refusal<H: Host>(
    alloc: Global,
    host: &mut H,
    given: &Given<'_, '_>,
    message: Option<&str>,
    refusal: Refusal,
)
    ensures { Runs H.does host.old host.new (λ events. IsExplanationWritten
        (IsRefusalText (files_of given.now) (option_map (λ m. m.now) message.entry) refusal) events) }
{
    write_explanation(host, refusal_text(alloc, given, message, refusal))
}

/// Explains on standard error what is rejected in the given files.
fn explain_given<H: Host>(alloc: Global, host: &mut H, given: &Given<'_, '_>)
    ensures { Runs H.does host.old host.new
        (λ events. IsExplanationWritten (IsExplained (files_of given.now)) events) }
{
    write_explanation(host, explain_texts(alloc, given))
}

/// Reports an error and then, if that is requested, explains what is rejected in the given files or, if nothing is, the
/// error, by [`refusal_text`] with the file `message`.
pub(crate) fn report_rejected<H: Host>(
    alloc: Global,
    host: &mut H,
    refusal: Refusal,
    explain: bool,
    given: &Given<'_, '_>,
    message: Option<&str>,
) -> ExitCode
    ensures { Runs H.does host.old host.new (λ events.
        Explains explain (IsRefusalText (files_of given.now) (option_map (λ m. m.now) message.entry) refusal)
        (IsErrorReported refusal) events (exit_status result)) }
{
    let end = report_refusal(alloc, host, refusal);
    if !explain {
        return end;
    }
    explain_refusal(alloc, host, given, message, refusal);
    end
}

/// Returns whether the policies of a check are explained: if explanations are requested and a policy is rejected.
fn is_explained(explain: bool, some_refused: bool) -> bool
    ensures { result ≡ explain && some_refused }
{
    explain && some_refused
}

/// Reports the lines of policies and then, if one is rejected and explanations are requested, explains what is rejected
/// in the given files.
pub(crate) fn report_checked<H: Host>(
    alloc: Global,
    host: &mut H,
    lines: &[u8],
    some_refused: bool,
    explain: bool,
    given: &Given<'_, '_>,
) -> ExitCode
    ensures { Runs H.does host.old host.new (λ events.
        Explains (explain && some_refused) (IsExplained (files_of given.now))
        (AreLinesReported lines.now some_refused) events (exit_status result)) }
{
    let end = report_lines(host, lines, some_refused);
    if !is_explained(explain, some_refused) {
        return end;
    }
    explain_given(alloc, host, given);
    end
}
