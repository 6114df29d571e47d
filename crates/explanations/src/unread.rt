//! Explains files of policies that do not parse.
ghost use Rattle.std.specs.Prelude.{◌≡◌, OnOk, IfOk, option_map, string_bytes};
ghost use Rattle.schema_decisions.specs.schema.Views.{schema_view};
ghost use Rattle.explanations.specs.TextParts.{AppendsSome};
ghost use Rattle.explanations.specs.UnparsedFiles.{IsPieceExplained, ArePiecesExplained, AppendsExplained};
ghost use Rattle.explanations.specs.UnparsedFiles.{end_of_token, is_that, IsCauseAt, IsReadErrorText};

use crate::finding::SourceFinding;
use crate::pieces::Piece;
use crate::policies::explain_policies;
use crate::source::push_source;
use crate::text_parts::part_of;
use entities::Schema;
use grammar_desugaring::Token;
use plain::NoMemory;
use policy_grammar::{ReadFault, parse_policies};
use schema_decisions::{Refusal, drop_policies};
use std::alloc::Global;
use std::slice;

/// The tokens of a text that does not parse, with its file and its error.
#[derive(Clone, Copy)]
pub(crate) struct Lexed<'t> {
    /// The name of the file.
    pub file: &'t str,
    /// The text.
    pub text: &'t str,
    /// Its tokens.
    pub tokens: &'t [Token],
    /// The error of the file.
    pub refusal: Refusal,
}

/// Returns the end of the token that starts at a byte; the byte itself if no token starts there.
fn end_of_token(tokens: &[Token], at: usize) -> usize
    ensures { result ≡ end_of_token tokens.now at }
{
    for token in tokens {
        if token.start == at {
            return token.end;
        }
    }
    at
}

/// Returns the cause of an error of this code at the token from `at` to `end`: the token, or `end of the text` if `at`
/// is not before the end of `text`. Only errors of the grammar, 11 (unexpected) to 16 (slot), name a token; others have
/// an empty cause.
fn cause_at(text: &str, code: u8, at: usize, end: usize) -> &str
    ensures { IsCauseAt text.now code at end result.now }
{
    match code {
        11..=16 if at < text.len() => part_of(text, at, end),
        11..=16 => "end of the text",
        _ => "",
    }
}

/// Appends the explanation of the error with this code at a byte of the text: at the token that starts there, with the
/// cause that [`cause_at`] returns.
pub(crate) fn push_read_fault(
    alloc: Global,
    out: &mut String,
    lexed: Lexed<'_>,
    code: u8,
    at: usize,
) -> Result<(), NoMemory>
    ensures { OnOk result (AppendsSome
        (IsReadErrorText lexed.entry.file.now lexed.entry.text.now lexed.entry.tokens.now code at)
        (string_bytes out.old) (string_bytes out.new)) }
{
    let end = end_of_token(lexed.tokens, at);
    let cause = cause_at(lexed.text, code, at, end);
    let finding = SourceFinding {
        code: u16::from(code),
        start: at,
        end,
        cause,
        detail: "",
        note: "",
    };
    push_source(alloc, out, lexed.file, lexed.text, &finding)
}

/// Returns whether an error of this code at this byte is `refusal`, the error of the file: has the same code at the
/// same byte, or the same code 18 (too long) or 19 (bad id), whose errors have no byte of their own.
fn is_that(refusal: Refusal, code: u8, at: usize) -> bool
    ensures { result ≡ is_that refusal code at }
{
    code == refusal.code && (at == refusal.place_number().unwrap_or(0) || matches!(code, 18..=19))
}

/// Appends why a piece of a file does not parse, or why its policy does not pass validation. Returns whether the piece
/// has the error of the file.
fn explain_piece(
    alloc: Global,
    out: &mut String,
    schema: Option<&Schema>,
    lexed: Lexed<'_>,
    piece: &Piece,
) -> Result<bool, NoMemory>
    ensures { IfOk result (AppendsExplained (IsPieceExplained (option_map (λ s. schema_view s.now) schema.entry)
        lexed.entry.file.now lexed.entry.text.now lexed.entry.tokens.now lexed.entry.refusal piece.now)
        (string_bytes out.old) (string_bytes out.new)) }
{
    match parse_policies(alloc, part_of(lexed.text, piece.start, piece.end)) {
        Ok(policies) => {
            let pieces = slice::from_ref(piece);
            let explained = explain_policies(
                alloc, out, schema, lexed.file, lexed.text, pieces, &policies,
            );
            drop_policies(policies);
            explained?;
            Ok(false)
        }
        Err(fault) => match fault {
            ReadFault::NoMemory => Err(NoMemory),
            _ => {
                let code = fault.code();
                let at = piece.start.saturating_add(fault.place().unwrap_or(0));
                push_read_fault(alloc, out, lexed, code, at)?;
                Ok(is_that(lexed.refusal, code, at))
            }
        },
    }
}

/// Appends the explanation of each piece ([`explain_piece`]), in order. Returns whether one of them has the error of
/// the file.
pub(crate) fn explain_pieces(
    alloc: Global,
    out: &mut String,
    schema: Option<&Schema>,
    lexed: Lexed<'_>,
    pieces: &[Piece],
) -> Result<bool, NoMemory>
    ensures { IfOk result (AppendsExplained (ArePiecesExplained (option_map (λ s. schema_view s.now) schema.entry)
        lexed.entry.file.now lexed.entry.text.now lexed.entry.tokens.now lexed.entry.refusal pieces.now)
        (string_bytes out.old) (string_bytes out.new)) }
{
    let mut some = false;
    for piece in pieces {
        some |= explain_piece(alloc, out, schema, lexed, piece)?;
    }
    Ok(some)
}
