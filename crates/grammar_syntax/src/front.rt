//! The token that a text begins with. Each function returns `None` if the text does not begin with such a token.
ghost use Rattle.std.specs.Prelude.{◌≡◌, ◌<◌, ◌++◌, List, codes, ℕ};
ghost use Rattle.grammar_syntax.specs.inner.Tokenizing.{ReportsToken, mark_of};

use crate::quoted::quoted;
use crate::token::{ScannedToken, TokenKind};
use crate::words::{pair, single, word_kind};
use plain::words::{digit, digits_len, letter, word_len};

/// Returns the punctuation mark that a text begins with.
pub(crate) fn mark(text: &[u8]) -> Option<ScannedToken>
    ensures { result ≡ mark_of text.now }
{
    let (first, rest) = text.split_first()?;
    if let Some(second) = rest.first() {
        if let Some(kind) = pair(*first, *second) {
            return Some(ScannedToken { kind, len: 2 });
        }
    }
    let kind = single(*first)?;
    Some(ScannedToken { kind, len: 1 })
}

/// Returns the template slot that a text begins with. The text must begin with `?`.
pub(crate) fn slot(text: &[u8]) -> Option<ScannedToken>
    requires { (rest : List ℕ) × (text.now ≡ codes "?" ++ rest) }
    ensures { ReportsToken text.now result }
{
    if text.starts_with(b"?principal") {
        Some(ScannedToken {
            kind: TokenKind::PrincipalSlot,
            len: 10,
        })
    } else if text.starts_with(b"?resource") {
        Some(ScannedToken {
            kind: TokenKind::ResourceSlot,
            len: 9,
        })
    } else {
        None
    }
}

/// Returns the token that a text begins with.
pub(crate) fn front(text: &str) -> Option<ScannedToken>
    ensures { ReportsToken text.now result }
{
    let bytes = text.as_bytes();
    let (first, _rest) = bytes.split_first()?;
    if letter(*first) {
        let len = word_len(bytes);
        return Some(ScannedToken {
            kind: word_kind(&text[..len]),
            len,
        });
    }
    if digit(*first) {
        return Some(ScannedToken {
            kind: TokenKind::Number,
            len: digits_len(bytes),
        });
    }
    if *first == b'"' {
        return quoted(bytes);
    }
    if *first == b'?' {
        return slot(bytes);
    }
    mark(bytes)
}
