//! The values and the patterns that strings denote.
ghost use Rattle.std.specs.Prelude.{◌≡◌, ◌≤◌, List, IfOk, length, true};
ghost use Rattle.grammar_syntax.specs.Lexing.{IsSpelledIn, spelling_of, IsBody};
ghost use Rattle.plain.specs.Words.{run};
ghost use Rattle.grammar_syntax.specs.inner.Tokenizing.{is_plain, character_of, IsLiteral};
ghost use Rattle.grammar_syntax.specs.Strings.{is_string, IsStringOf, IsPatternOf};
ghost use Rattle.grammar_syntax.specs.declared.piece.Piece.{Piece};

use crate::piece::Piece;
use crate::quoted::escape;
use crate::token::{Token, TokenKind};
use crate::written::body;
use plain::{NoMemory, Text};
use std::alloc::Global;

/// The decoded front of a string's body, and the number of bytes that this front has in the body.
#[derive(Drop)]
struct Literal {
    value: Text,
    len: usize,
}

/// Returns whether a byte between quotes denotes itself. A star does not if `in_pattern` is true.
#[tactic(auto, unfolding(crate::specs::inner::Tokenizing::is_plain))]
fn plain_byte(in_pattern: bool, byte: u8) -> bool
    ensures { result ≡ is_plain in_pattern byte }
{
    !(byte == b'\\' || (in_pattern && byte == b'*'))
}

/// Returns the number of bytes before the first byte of `text` that does not denote itself, or all if each does.
fn plain_len(in_pattern: bool, text: &[u8]) -> usize
    ensures is { result ≡ run (is_plain in_pattern) text.now }
    ensures within { result ≤ length text.now }
{
    let mut len = 0;
    for byte in text {
        if !plain_byte(in_pattern, *byte) {
            return len;
        }
        len += 1;
    }
    len
}

/// Returns the character that an escape denotes; `*` for a `Byte`, which is not an escape.
fn character(piece: Piece) -> char
    ensures { result ≡ character_of piece }
{
    match piece {
        Piece::Char(c) => c,
        Piece::Byte(_) | Piece::Star => '*',
    }
}

/// Decodes the body of a string: all of it, or, if `in_pattern` is true, only up to the first wildcard.
fn read_literal(alloc: Global, body: &str, in_pattern: bool) -> Result<Literal, NoMemory>
    requires { (ps : List Piece) × IsBody ps body.now }
    ensures { IfOk result (λ literal. IsLiteral in_pattern literal.value literal.len body.now) }
{
    let bytes = body.as_bytes();
    let mut value = String::new(alloc);
    let mut at = 0;
    while at < bytes.len() {
        let byte = bytes[at];
        if byte == b'\\' {
            let Some(escape) = escape(&bytes[at..]) else {
                unreachable!();
            };
            value.push(character(escape.piece))?;
            at += escape.len;
        } else {
            let len = plain_len(in_pattern, &bytes[at..]);
            if len == 0 {
                break;
            }
            let end = at + len;
            value.push_str(&body[at..end])?;
            at = end;
        }
    }
    Ok(Literal {
        value: Text::from_string(value),
        len: at,
    })
}

/// Returns the value of the string at `token`, which has no `\*`: the text between the string's quotes, with each
/// escape replaced by its meaning.
///
/// Text between two escapes is copied in one step, so a string without escapes is copied whole. The only error is
/// `NoMemory`.
pub fn decode_string(alloc: Global, text: &str, token: Token) -> Result<Text, NoMemory>
    requires spelled { IsSpelledIn text.now token }
    requires string { token.kind ≡ TokenKind.Text }
    ensures { IfOk result (λ value. IsStringOf value (spelling_of text.now token)) }
{
    let Literal { value, len: _ } = read_literal(alloc, body(text, token), false)?;
    Ok(value)
}

/// Returns the pattern that the string at `token` denotes after `like`: the literal texts before, between and after the
/// wildcards.
///
/// An unescaped `*` is a wildcard; an escaped one, `\*`, is a literal star. A pattern without a wildcard is one text.
/// The only error is `NoMemory`.
pub fn decode_pattern(alloc: Global, text: &str, token: Token) -> Result<Vec<Text>, NoMemory>
    requires spelled { IsSpelledIn text.now token }
    requires string { is_string token.kind ≡ true }
    ensures { IfOk result (λ literals. IsPatternOf literals.items (spelling_of text.now token)) }
{
    let mut literals = Vec::new(alloc);
    let mut rest = body(text, token);
    loop {
        let Literal { value, len } = read_literal(alloc, rest, true)?;
        literals.push(value)?;
        let Some(behind) = rest[len..].strip_prefix('*') else {
            return Ok(literals);
        };
        rest = behind;
    }
}
