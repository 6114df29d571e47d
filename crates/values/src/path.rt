//! The test whether a string is a Path of the policy language.
ghost use Rattle.std.specs.Prelude.{◌↔◌, IsTrue};
ghost use Rattle.extensions.specs.plain.Words.{is_word_byte, AllAre, IsReserved, IsIdent, IsPath};

use extensions::{letter, word_len};

/// The reserved words, which are not identifiers.
const RESERVED: [&[u8]; 10] = [
    b"true", b"false", b"if", b"then", b"else", b"in", b"is", b"like", b"has", b"__cedar",
];

/// Returns whether a word is reserved.
fn is_reserved(word: &[u8]) -> bool
    ensures { IsTrue result ↔ IsReserved word.now }
{
    RESERVED.contains(&word)
}

/// Returns whether `word`, a string of ASCII letters, digits and `_`, is an identifier.
fn is_ident(word: &[u8]) -> bool
    requires { AllAre is_word_byte word.now }
    ensures { IsTrue result ↔ IsIdent word.now }
{
    match word {
        [first, ..] => letter(*first) && !is_reserved(word),
        [] => false,
    }
}

/// Returns whether a string is a Path: one or more identifiers, joined by `::`.
pub(crate) fn is_path(text: &[u8]) -> bool
    ensures { IsTrue result ↔ IsPath text.now }
{
    let mut rest = text;
    loop {
        let (word, tail) = rest.split_at(word_len(rest));
        if !is_ident(word) {
            return false;
        }
        if tail.is_empty() {
            return true;
        }
        match tail.strip_prefix(b"::") {
            Some(more) => rest = more,
            None => return false,
        }
    }
}
