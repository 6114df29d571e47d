//! The text of a token.
ghost use Rattle.std.specs.Prelude.{◌≡◌, ◌↔◌, ◌∷◌, ◌++◌, [], true};
ghost use Rattle.plain.specs.Words.{IsIdent, IsReserved};
ghost use Rattle.grammar_syntax.specs.Idents.{is_ident, is_reserved};
ghost use Rattle.grammar_syntax.specs.Lexing.{IsSpelledIn, spelling_of, quote};
ghost use Rattle.grammar_syntax.specs.Strings.{is_string};

use crate::token::Token;

/// Returns the text of a token. Does not allocate.
///
/// The token's kind determines whether this text is an identifier, and whether it is a reserved word.
pub fn spelling(text: &str, token: Token) -> &str
    requires { IsSpelledIn text.now token }
    ensures is { result.now ≡ spelling_of text.now token }
    ensures ident { (is_ident token.kind ≡ true) ↔ IsIdent result.now }
    ensures reserved { (is_reserved token.kind ≡ true) ↔ IsReserved result.now }
{
    &text[token.start..token.end]
}

/// Returns the text between the quotes of a string, with its escapes undecoded. Does not allocate.
pub fn body(text: &str, token: Token) -> &str
    requires spelled { IsSpelledIn text.now token }
    requires string { is_string token.kind ≡ true }
    ensures { spelling_of text.now token ≡ quote ∷ result.now ++ quote ∷ [] }
{
    &text[token.start + 1..token.end - 1]
}
