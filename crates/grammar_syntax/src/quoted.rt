//! Strings and their escapes. A function that returns an `Option` returns `None` if the bytes are not of the form that
//! it looks for.
ghost use Rattle.std.specs.Prelude.{◌≡◌, ◌<◌, ◌≤◌, ◌∷◌, List, ℕ, length};
ghost use Rattle.std.specs.Option.{SomeIff};
ghost use Rattle.std.specs.Char.{digit_value};
ghost use Rattle.plain.specs.Words.{AllAre, run};
ghost use Rattle.grammar_syntax.specs.Lexing.{quote, backslash, escaped, is_hex, hex_after};
ghost use Rattle.grammar_syntax.specs.inner.Tokenizing.{kind_with, ReportsEscape, ReportsToken};

use crate::piece::{Escape, Piece};
use crate::token::{ScannedToken, TokenKind};

/// Returns the character that a byte denotes after a backslash, if the byte is one of `n r t \ 0 ' "`.
fn letter_meant(byte: u8) -> Option<char>
    ensures { result ≡ escaped byte }
{
    match byte {
        b'n' => Some('\n'),
        b'r' => Some('\r'),
        b't' => Some('\t'),
        b'\\' => Some('\\'),
        b'0' => Some('\0'),
        b'\'' => Some('\''),
        b'"' => Some('"'),
        _ => None,
    }
}

/// Returns whether a byte is a hexadecimal digit.
#[tactic(auto, unfolding(crate::specs::Lexing::is_hex))]
fn hex(byte: u8) -> bool
    ensures { result ≡ is_hex byte }
{
    (byte as char).to_digit(16).is_some()
}

/// Returns the number of hexadecimal digits that a text begins with.
fn hex_len(text: &[u8]) -> usize
    ensures is { result ≡ run is_hex text.now }
    ensures within { result ≤ length text.now }
{
    let mut len = 0;
    for byte in text {
        if !hex(*byte) {
            return len;
        }
        len += 1;
    }
    len
}

/// Returns the value of a hexadecimal digit.
#[tactic(auto, unfolding(crate::specs::Lexing::is_hex))]
fn hex_value(byte: u8) -> Option<u32>
    ensures { SomeIff result (digit_value byte < 16) (digit_value byte) }
{
    (byte as char).to_digit(16)
}

/// Returns the escape `\x` with two hexadecimal digits up to 7F, where `text` is what follows the `x` (code 120).
fn short_escape(text: &[u8]) -> Option<Escape>
    ensures { ReportsEscape (backslash ∷ 120 ∷ text.now) result }
{
    let (high, rest) = text.split_first()?;
    let (low, _) = rest.split_first()?;
    let high = hex_value(*high)?;
    if high > 7 {
        return None;
    }
    let low = hex_value(*low)?;
    Some(Escape {
        piece: Piece::Char((high * 16 + low) as u8 as char),
        len: 4,
    })
}

/// Returns the number that up to six hexadecimal digits denote.
fn hex_number(digits: &[u8]) -> u32
    requires hex { AllAre is_hex digits.now }
    requires few { length digits.now ≤ 6 }
    ensures { result ≡ hex_after 0 digits.now }
{
    let mut number = 0;
    for digit in digits {
        number = number * 16 + hex_value(*digit).unwrap();
    }
    number
}

/// Returns the escape `\u` with one to six hexadecimal digits in braces, where `text` is what follows the `u` (code
/// 117).
fn long_escape(text: &[u8]) -> Option<Escape>
    ensures { ReportsEscape (backslash ∷ 117 ∷ text.now) result }
{
    let (brace, rest) = text.split_first()?;
    if *brace != b'{' {
        return None;
    }
    let len = hex_len(rest);
    if len == 0 {
        return None;
    }
    if len > 6 {
        return None;
    }
    if len >= rest.len() {
        return None;
    }
    if rest[len] != b'}' {
        return None;
    }
    let Some(c) = char::from_u32(hex_number(&rest[..len])) else {
        return None;
    };
    Some(Escape {
        piece: Piece::Char(c),
        len: len + 4,
    })
}

/// Returns the escape that a text begins with. The text must begin with a backslash.
pub(crate) fn escape(text: &[u8]) -> Option<Escape>
    requires { (rest : List ℕ) × (text.now ≡ backslash ∷ rest) }
    ensures { ReportsEscape text.now result }
{
    let (_, rest) = text.split_first()?;
    let (letter, rest) = rest.split_first()?;
    match *letter {
        b'*' => Some(Escape {
            piece: Piece::Star,
            len: 2,
        }),
        b'x' => short_escape(rest),
        b'u' => long_escape(rest),
        other => Some(Escape {
            piece: Piece::Char(letter_meant(other)?),
            len: 2,
        }),
    }
}

/// Returns the kind of a string: `StarText` if this piece is `\*`, else `kind`, the kind by the other pieces.
fn kind_with(kind: TokenKind, piece: Piece) -> TokenKind
    ensures { result ≡ kind_with kind piece }
{
    match piece {
        Piece::Star => TokenKind::StarText,
        _ => kind,
    }
}

/// Returns the string that a text begins with. The text must begin with a quote.
pub(crate) fn quoted(text: &[u8]) -> Option<ScannedToken>
    requires { (rest : List ℕ) × (text.now ≡ quote ∷ rest) }
    ensures { ReportsToken text.now result }
{
    let mut kind = TokenKind::Text;
    let mut at = 1;
    while at < text.len() {
        let byte = text[at];
        if byte == b'"' {
            return Some(ScannedToken { kind, len: at + 1 });
        }
        if byte == b'\\' {
            let Some(escape) = escape(&text[at..]) else {
                return None;
            };
            kind = kind_with(kind, escape.piece);
            at += escape.len;
        } else {
            at += 1;
        }
    }
    None
}
