//! Tokens and their kinds.
ghost use Rattle.std.specs.Prelude.{◌≡◌};
ghost use Rattle.grammar_syntax.specs.Idents.{is_ident, is_reserved};

/// The kinds of tokens: one for each keyword, slot and punctuation mark, and those of identifiers, numbers and strings.
#[derive(Clone, Copy, Debug, PartialEq, Eq)]
pub enum TokenKind {
    /// An identifier that is not a keyword.
    Ident,
    /// One or more digits.
    Number,
    /// A string without `\*`.
    Text,
    /// A string with `\*`, which is allowed only as a pattern.
    StarText,
    True,
    False,
    If,
    Then,
    Else,
    In,
    Is,
    Like,
    Has,
    /// `__cedar`, which is reserved.
    Cedar,
    Permit,
    Forbid,
    When,
    Unless,
    Principal,
    Action,
    Resource,
    Context,
    /// `?principal`
    PrincipalSlot,
    /// `?resource`
    ResourceSlot,
    At,
    LParen,
    RParen,
    LBrace,
    RBrace,
    LBracket,
    RBracket,
    Comma,
    Semicolon,
    /// `:`
    Colon,
    /// `::`
    Colons,
    Dot,
    /// `==`
    Equal,
    /// `!=`
    NotEqual,
    Less,
    LessEqual,
    Greater,
    GreaterEqual,
    /// `&&`
    And,
    /// `||`
    Or,
    Plus,
    Minus,
    /// `*`
    Star,
    /// `!`
    Not,
}

impl TokenKind {
    /// Returns whether a token of this kind is an identifier.
    pub fn is_ident(self) -> bool
        ensures { result ≡ is_ident self }
    {
        matches!(
            self,
            TokenKind::Ident
                | TokenKind::Permit
                | TokenKind::Forbid
                | TokenKind::When
                | TokenKind::Unless
                | TokenKind::Principal
                | TokenKind::Action
                | TokenKind::Resource
                | TokenKind::Context
        )
    }

    /// Returns whether a token of this kind is a reserved word.
    pub fn is_reserved(self) -> bool
        ensures { result ≡ is_reserved self }
    {
        matches!(
            self,
            TokenKind::True
                | TokenKind::False
                | TokenKind::If
                | TokenKind::Then
                | TokenKind::Else
                | TokenKind::In
                | TokenKind::Is
                | TokenKind::Like
                | TokenKind::Has
                | TokenKind::Cedar
        )
    }
}

/// A token, and its position: the token's text is the bytes of the source text from offset `start` up to offset `end`.
#[derive(Clone, Copy, PartialEq, Eq)]
pub struct Token {
    pub kind: TokenKind,
    pub start: usize,
    pub end: usize,
}

/// A token at the front of a text: its kind, and its length in bytes.
#[derive(Clone, Copy)]
pub(crate) struct ScannedToken {
    pub(crate) kind: TokenKind,
    pub(crate) len: usize,
}
