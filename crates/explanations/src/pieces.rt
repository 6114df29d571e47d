//! Positions of policies in their file.
ghost use Rattle.std.specs.Prelude.{◌≡◌, OnOk, IfOk};
ghost use Rattle.explanations.specs.Pieces.{ArePiecesOf, open_after, pieces_after, with_open, piece_at};

use grammar_desugaring::{Token, TokenKind};
use plain::NoMemory;
use std::alloc::Global;

/// The position of a policy in its file.
#[derive(Clone, Copy)]
pub(crate) struct Piece {
    /// The byte at which the first token of the policy starts.
    pub start: usize,
    /// The byte after the `;` that ends the policy; without one, the length of the text.
    pub end: usize,
}

/// Appends the piece that a token ends, if it ends one. Returns the start of the piece that is open after the token, if
/// one is open.
fn take_token(
    pieces: &mut Vec<Piece>,
    begun: Option<usize>,
    token: &Token,
) -> Result<Option<usize>, NoMemory>
    ensures { IfOk result (λ after. (after ≡ open_after begun token.now)
        × (pieces.new.items ≡ pieces_after pieces.old.items begun token.now)) }
{
    let start = begun.unwrap_or(token.start);
    match token.kind {
        TokenKind::Semicolon => {
            let end = token.end;
            pieces.push(Piece { start, end })?;
            Ok(None)
        }
        _ => Ok(Some(start)),
    }
}

/// Appends the piece that is open at the end of a text of this size, if one is.
fn push_open(pieces: &mut Vec<Piece>, begun: Option<usize>, size: usize) -> Result<(), NoMemory>
    ensures { OnOk result (pieces.new.items ≡ with_open size pieces.old.items begun) }
{
    match begun {
        Some(start) => {
            pieces.push(Piece { start, end: size })?;
            Ok(())
        }
        None => Ok(()),
    }
}

/// Returns the position of each policy of a file of this size with these tokens, in order. In a text that does not
/// parse, these are the parts that end with a `;`, and the rest.
pub(crate) fn pieces_of(
    alloc: Global,
    tokens: &[Token],
    size: usize,
) -> Result<Vec<Piece>, NoMemory>
    ensures { IfOk result (λ pieces. ArePiecesOf size tokens.now pieces.items) }
{
    let mut pieces = Vec::new(alloc);
    let mut open: Option<usize> = None;
    for token in tokens {
        let after = take_token(&mut pieces, open, token)?;
        open = after;
    }
    push_open(&mut pieces, open, size)?;
    Ok(pieces)
}

/// Returns the piece at an index; an empty one at the beginning of the text if the index is too large.
pub(crate) fn piece_at(pieces: &[Piece], place: usize) -> Piece
    ensures { result ≡ piece_at pieces.now place }
{
    match pieces.get(place) {
        Some(piece) => *piece,
        None => Piece { start: 0, end: 0 },
    }
}
