//! Explains what is rejected in the texts of a schema, policies, entities and a request.
ghost use Rattle.std.specs.Prelude.{◌≡◌, OnOk, IfOk, option_map, string_bytes};
ghost use Rattle.std.specs.Str.{IsValidUpTo};
ghost use Rattle.schema_decisions.specs.schema.Views.{schema_view};
ghost use Rattle.schema_decisions.specs.answer_lines.Refusals.{no_memory};
ghost use Rattle.explanations.specs.Files.{file_of, files_of};
ghost use Rattle.explanations.specs.TextParts.{AppendsSome};
ghost use Rattle.explanations.specs.FileExplanations.{AreTokensOf, IsTextExplained};
ghost use Rattle.explanations.specs.FileExplanations.{IsNoTextExplained, IsFileExplained, AreOthersExplained};
ghost use Rattle.explanations.specs.FileExplanations.{IsUnreadExplained, IsExplained};

use crate::given::{Given, NamedText};
use crate::others::{explain_entities, explain_request};
use crate::pieces::{Piece, pieces_of};
use crate::policies::explain_policies;
use crate::text_parts::{push_refusal, unless_no_memory};
use crate::unread::{Lexed, explain_pieces, push_read_fault};
use entities::Schema;
use grammar_desugaring::{LexFault, Token, tokens};
use plain::NoMemory;
use schema_decisions::{Refusal, drop_policies, drop_schema, parse_schema, policies_of_file};
use std::alloc::Global;

/// Returns the tokens of a text; an empty list if at some byte no token begins.
fn tokens_of(alloc: Global, text: &str) -> Result<Vec<Token>, NoMemory>
    ensures { IfOk result (λ tokens. AreTokensOf text.now tokens.items) }
{
    match tokens(alloc, text) {
        Ok(tokens) => Ok(tokens),
        Err(fault) => match fault {
            LexFault::NoMemory => Err(NoMemory),
            LexFault::BadToken(_) => Ok(Vec::new(alloc)),
        },
    }
}

/// Appends why a file of policies does not parse: the error of each of its pieces, and then that of the file, unless a
/// piece has it. Returns `NoMemory` if the error of the file is `NoMemory`.
fn explain_unread(
    alloc: Global,
    out: &mut String,
    schema: Option<&Schema>,
    lexed: Lexed<'_>,
    pieces: &[Piece],
) -> Result<(), NoMemory>
    ensures { OnOk result ((lexed.entry.refusal ≡ no_memory → ⊥)
        × AppendsSome (IsUnreadExplained (option_map (λ s. schema_view s.now) schema.entry) lexed.entry.file.now
        lexed.entry.text.now lexed.entry.tokens.now pieces.now lexed.entry.refusal)
        (string_bytes out.old) (string_bytes out.new)) }
{
    unless_no_memory(lexed.refusal)?;
    let some = explain_pieces(alloc, out, schema, lexed, pieces)?;
    if some {
        return Ok(());
    }
    let at = lexed.refusal.place_number().unwrap_or(0);
    push_read_fault(alloc, out, lexed, lexed.refusal.code, at)
}

/// Appends the explanation of what is rejected in a file of policies with this text.
fn explain_text(
    alloc: Global,
    out: &mut String,
    schema: Option<&Schema>,
    file: &str,
    text: &str,
) -> Result<(), NoMemory>
    ensures { OnOk result (AppendsSome
        (IsTextExplained (option_map (λ s. schema_view s.now) schema.entry) file.now text.now)
        (string_bytes out.old) (string_bytes out.new)) }
{
    let tokens = tokens_of(alloc, text)?;
    let all = tokens.as_slice();
    let pieces = pieces_of(alloc, all, text.len())?;
    let found_pieces = pieces.as_slice();
    match policies_of_file(alloc, text.as_bytes()) {
        Ok(policies) => {
            let named = policies.as_slice();
            let explained = explain_policies(alloc, out, schema, file, text, found_pieces, named);
            drop_policies(policies);
            explained
        }
        Err(refusal) => {
            let lexed = Lexed {
                file,
                text,
                tokens: all,
                refusal,
            };
            explain_unread(alloc, out, schema, lexed, found_pieces)
        }
    }
}

/// Appends that a file of policies is not UTF-8, where `at` is the length of the file's longest prefix that is UTF-8.
fn explain_no_text(
    alloc: Global,
    out: &mut String,
    source: NamedText<'_, '_>,
    at: usize,
) -> Result<(), NoMemory>
    ensures { IsValidUpTo source.entry.text.now at → OnOk result (AppendsSome
        (IsNoTextExplained source.entry.name.now source.entry.text.now)
        (string_bytes out.old) (string_bytes out.new)) }
{
    match policies_of_file(alloc, source.text) {
        Ok(policies) => {
            drop_policies(policies);
            Ok(())
        }
        Err(refusal) => {
            let words = format!(in alloc; "the file is not UTF-8 at byte {at} (from 0)")?;
            let whole = Refusal {
                place: None,
                ..refusal
            };
            push_refusal(out, source.name, whole, words.as_str())
        }
    }
}

/// Appends the explanation of what is rejected in a file of policies.
fn explain_file(
    alloc: Global,
    out: &mut String,
    schema: Option<&Schema>,
    source: NamedText<'_, '_>,
) -> Result<(), NoMemory>
    ensures { OnOk result (AppendsSome (IsFileExplained (option_map (λ s. schema_view s.now) schema.entry)
        source.entry.name.now source.entry.text.now) (string_bytes out.old) (string_bytes out.new)) }
{
    match str::from_utf8(source.text) {
        Ok(text) => explain_text(alloc, out, schema, source.name, text),
        Err(fault) => explain_no_text(alloc, out, source, fault.valid_up_to()),
    }
}

/// Appends the explanation of what is rejected in the policies, the entities and the request.
fn explain_others(
    alloc: Global,
    out: &mut String,
    schema: Option<&Schema>,
    given: &Given<'_, '_>,
) -> Result<(), NoMemory>
    ensures { OnOk result (AppendsSome (AreOthersExplained (option_map (λ s. schema_view s.now) schema.entry)
        (files_of given.now)) (string_bytes out.old) (string_bytes out.new)) }
{
    explain_file(alloc, out, schema, given.policies)?;
    explain_entities(alloc, out, schema, given.entities)?;
    explain_request(alloc, out, schema, given.schema, given.request)
}

/// Appends why the schema is rejected, if it is; else the explanation of what is rejected in the other texts.
fn explain_given(alloc: Global, out: &mut String, given: &Given<'_, '_>) -> Result<(), NoMemory>
    ensures { OnOk result (AppendsSome (IsExplained (files_of given.now))
        (string_bytes out.old) (string_bytes out.new)) }
{
    let Some(source) = given.schema else {
        return explain_others(alloc, out, None, given);
    };
    match parse_schema(alloc, source.text) {
        Ok(schema) => {
            let explained = explain_others(alloc, out, Some(&schema), given);
            drop_schema(schema);
            explained
        }
        Err(refusal) => push_refusal(out, source.name, refusal, ""),
    }
}

/// Returns the text that explains what is rejected in these texts: the schema alone, if it is rejected; else each
/// rejected policy, in the order of the file, then the first error of the entities, then that of the request. It is
/// empty if and only if nothing is rejected. Under a schema the explanation of an entity or of the request names the
/// part at fault by its JSON pointer and, for a part of the attributes or of the context, its declared type.
///
/// A policy that does not pass validation is explained with the code that `check` reports. If the file does not parse,
/// each piece of it, which ends with a `;` or with the file, is parsed as a file of its own: it is explained by its own
/// first error or, if it parses, checked as a policy of a file. The file's error comes last, unless a piece has it. A
/// text in which no token begins at some byte has no pieces. Of a file that is not UTF-8, the first byte that is no
/// part of a character is named, and no line is shown.
///
/// # Errors
///
/// - `NoMemory`: an allocation failed.
pub fn explain_texts(alloc: Global, given: &Given<'_, '_>) -> Result<String, NoMemory>
    ensures { IfOk result (λ text. IsExplained (files_of given.now) (string_bytes text)) }
{
    let mut out = String::new(alloc);
    explain_given(alloc, &mut out, given)?;
    Ok(out)
}
