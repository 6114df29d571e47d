//! The kinds of words and of punctuation marks.
ghost use Rattle.std.specs.Prelude.{◌≡◌, ◌∷◌, []};
ghost use Rattle.grammar_syntax.specs.Lexing.{kind_of_word, listed, singles, pairs};

use crate::token::TokenKind;

/// Returns the kind of a word: that of a reserved word or keyword, else `Ident`.
#[tactic(auto, unfolding(crate::specs::Lexing::kind_of_word))]
pub(crate) fn word_kind(word: &str) -> TokenKind
    ensures { result ≡ kind_of_word word.now }
{
    match word {
        "true" => TokenKind::True,
        "false" => TokenKind::False,
        "if" => TokenKind::If,
        "then" => TokenKind::Then,
        "else" => TokenKind::Else,
        "in" => TokenKind::In,
        "is" => TokenKind::Is,
        "like" => TokenKind::Like,
        "has" => TokenKind::Has,
        "__cedar" => TokenKind::Cedar,
        "permit" => TokenKind::Permit,
        "forbid" => TokenKind::Forbid,
        "when" => TokenKind::When,
        "unless" => TokenKind::Unless,
        "principal" => TokenKind::Principal,
        "action" => TokenKind::Action,
        "resource" => TokenKind::Resource,
        "context" => TokenKind::Context,
        _ => TokenKind::Ident,
    }
}

/// Returns the kind of the punctuation mark that is the byte `byte`, or `None` if there is no such mark.
pub(crate) fn single(byte: u8) -> Option<TokenKind>
    ensures { result ≡ listed singles (byte ∷ []) }
{
    match byte {
        b'@' => Some(TokenKind::At),
        b'(' => Some(TokenKind::LParen),
        b')' => Some(TokenKind::RParen),
        b'{' => Some(TokenKind::LBrace),
        b'}' => Some(TokenKind::RBrace),
        b'[' => Some(TokenKind::LBracket),
        b']' => Some(TokenKind::RBracket),
        b',' => Some(TokenKind::Comma),
        b';' => Some(TokenKind::Semicolon),
        b':' => Some(TokenKind::Colon),
        b'.' => Some(TokenKind::Dot),
        b'<' => Some(TokenKind::Less),
        b'>' => Some(TokenKind::Greater),
        b'+' => Some(TokenKind::Plus),
        b'-' => Some(TokenKind::Minus),
        b'*' => Some(TokenKind::Star),
        b'!' => Some(TokenKind::Not),
        _ => None,
    }
}

/// Returns the kind of the punctuation mark of the bytes `first` and `second`, or `None` if there is no such mark.
pub(crate) fn pair(first: u8, second: u8) -> Option<TokenKind>
    ensures { result ≡ listed pairs (first ∷ second ∷ []) }
{
    match (first, second) {
        (b':', b':') => Some(TokenKind::Colons),
        (b'=', b'=') => Some(TokenKind::Equal),
        (b'!', b'=') => Some(TokenKind::NotEqual),
        (b'<', b'=') => Some(TokenKind::LessEqual),
        (b'>', b'=') => Some(TokenKind::GreaterEqual),
        (b'&', b'&') => Some(TokenKind::And),
        (b'|', b'|') => Some(TokenKind::Or),
        _ => None,
    }
}
