//! The command `explain`.
ghost use Rattle.std.specs.Prelude.{◌≡◌, MatchOption, option_map};
ghost use Rattle.std.specs.List.{list_all};
ghost use Rattle.std.specs.Process.{exit_status};
ghost use Rattle.explanations.specs.CodeText.{texts_of};
ghost use Rattle.explanations.specs.Files.{file_of, files_of};
ghost use Rattle.program.specs.Events.{Runs};
ghost use Rattle.program.specs.ExplainCommand.{is_some_text, is_decimal, is_number, file_named, files_named};
ghost use Rattle.program.specs.ExplainCommand.{AreWordsOn, IsNoCode};
ghost use Rattle.program.specs.ExplainCommand.{IsCodeExplained, AreTextsExplained, AreFilesExplained};
ghost use Rattle.program.specs.ExplainCommand.{IsExplainRun};

use crate::host::Host;
use crate::reading::{lent, read_file, read_if_named};
use crate::report::{report_answer, report_explained, report_memory, report_no_code};
use explanations::{CodeWords, Given, NamedText, code_text, explain_texts, words_of};
use program_lines::ExplainOptions;
use std::alloc::Global;
use std::process::ExitCode;

/// Returns whether a text is not empty.
pub(crate) fn is_some_text(text: &str) -> bool
    ensures { result ≡ is_some_text text.now }
{
    !text.is_empty()
}

/// Returns whether a byte is an ASCII digit.
fn is_decimal(byte: u8) -> bool
    ensures { result ≡ is_decimal byte }
{
    matches!(byte, b'0'..=b'9')
}

/// Returns whether each byte of an argument is an ASCII digit.
fn are_decimals(word: &str) -> bool
    ensures { result ≡ list_all is_decimal word.now }
{
    word.bytes().all(|byte| is_decimal(byte))
}

/// Returns whether an argument is one or more decimal digits.
fn is_number(word: &str) -> bool
    ensures { result ≡ is_number word.now }
{
    is_some_text(word) && are_decimals(word)
}

/// Returns the texts on the code that an argument names, or `None` if there is no such code.
fn words_for(word: &str) -> Option<&'static CodeWords<&'static str>>
    ensures { MatchOption result (IsNoCode word.now) (λ words. AreWordsOn word.now (texts_of words.now)) }
{
    match word.parse::<u16>() {
        Ok(code) => words_of(code),
        Err(_) => None,
    }
}

/// Reports the explanation of a code, or that no code has this number.
fn explain_code<H: Host>(alloc: Global, host: &mut H, word: &str) -> ExitCode
    ensures { Runs H.does host.old host.new (λ events. IsCodeExplained word.now events (exit_status result)) }
{
    match words_for(word) {
        Some(words) => match code_text(alloc, words) {
            Ok(text) => report_answer(host, text.as_str().as_bytes()),
            Err(_) => report_memory(host),
        },
        None => report_no_code(host, word),
    }
}

/// Returns a text with the name of its file, if both are present.
pub(crate) fn source_of<'n, 't>(
    name: Option<&'n str>,
    text: Option<&'t [u8]>,
) -> Option<NamedText<'n, 't>>
    ensures { option_map file_of result ≡ file_named (option_map (λ s. s.now) name.entry)
        (option_map (λ s. s.now) text.entry) }
{
    match name {
        Some(name) => match text {
            Some(text) => Some(NamedText { name, text }),
            None => None,
        },
        None => None,
    }
}

/// The contents of the files that are explained.
#[derive(Clone, Copy)]
struct FileContents<'t> {
    schema: Option<&'t [u8]>,
    policies: &'t [u8],
    entities: Option<&'t [u8]>,
    request: Option<&'t [u8]>,
}

/// Returns the files that the options name, with their contents.
fn given_files<'n, 't>(options: &ExplainOptions<'n>, held: FileContents<'t>) -> Given<'n, 't>
    ensures { files_of result ≡ files_named options.now (option_map (λ s. s.now) held.entry.schema)
        held.entry.policies.now
        (option_map (λ s. s.now) held.entry.entities) (option_map (λ s. s.now) held.entry.request) }
{
    Given {
        schema: source_of(options.schema, held.schema),
        policies: NamedText {
            name: options.what,
            text: held.policies,
        },
        entities: source_of(options.entities, held.entities),
        request: source_of(options.request, held.request),
    }
}

/// Reports the explanation of what is rejected in files.
fn report_explanation<H: Host>(alloc: Global, host: &mut H, given: &Given<'_, '_>) -> ExitCode
    ensures { Runs H.does host.old host.new
        (λ events. AreTextsExplained (files_of given.now) events (exit_status result)) }
{
    match explain_texts(alloc, given) {
        Ok(text) => report_explained(host, text.as_str()),
        Err(_) => report_memory(host),
    }
}

/// Reads the named files in the order schema, policies, entities, request, and reports what is rejected in them.
fn explain_files<H: Host>(alloc: Global, host: &mut H, options: &ExplainOptions<'_>) -> ExitCode
    ensures { Runs H.does host.old host.new (λ events. AreFilesExplained options.now events (exit_status result)) }
{
    let schema = match read_if_named(host, options.schema) {
        Ok(found) => found,
        Err(end) => return end,
    };
    let policies = match read_file(host, options.what) {
        Ok(bytes) => bytes,
        Err(end) => return end,
    };
    let entities = match read_if_named(host, options.entities) {
        Ok(found) => found,
        Err(end) => return end,
    };
    let request = match read_if_named(host, options.request) {
        Ok(found) => found,
        Err(end) => return end,
    };
    let held = FileContents {
        schema: lent(&schema),
        policies: &policies,
        entities: lent(&entities),
        request: lent(&request),
    };
    report_explanation(alloc, host, &given_files(options, held))
}

/// Explains a code, if the argument is a number, and otherwise what is rejected in files.
pub(crate) fn run_explain<H: Host>(
    alloc: Global,
    host: &mut H,
    options: &ExplainOptions<'_>,
) -> ExitCode
    ensures { Runs H.does host.old host.new (λ events. IsExplainRun options.now events (exit_status result)) }
{
    if is_number(options.what) {
        explain_code(alloc, host, options.what)
    } else {
        explain_files(alloc, host, options)
    }
}
