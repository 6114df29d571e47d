//! The sets of token kinds that the parsers of expressions use.
ghost use Rattle.grammar_parsing.specs.inner.IncludedSets.{included as of_expressions};

use grammar_syntax::{KindSet, TokenKind};

/// A set of token kinds.
#[derive(Clone, Copy)]
pub(crate) enum TokenSet {
    /// `true` and `false`.
    Booleans,
    /// An identifier, or a string without `\*`.
    Keys,
    /// Strings, with or without `\*`.
    Patterns,
    /// `+` and `-`.
    Signs,
    /// `<`, `<=`, `>`, `>=`, `==`, `!=` and `in`.
    Comparisons,
    /// `(`, `[` and `{`.
    Openers,
    /// The first tokens of an access: `.` and `[`.
    AccessStarts,
    /// The first tokens of an expression.
    ExpressionStarts,
}

impl KindSet for TokenSet {
    ghost included = { of_expressions };

    fn includes(self, kind: TokenKind) -> bool {
        match self {
            TokenSet::Booleans => matches!(kind, TokenKind::True | TokenKind::False),
            TokenSet::Keys => match kind {
                TokenKind::Text => true,
                _ => kind.is_ident(),
            },
            TokenSet::Patterns => matches!(kind, TokenKind::Text | TokenKind::StarText),
            TokenSet::Signs => matches!(kind, TokenKind::Plus | TokenKind::Minus),
            TokenSet::Comparisons => matches!(
                kind,
                TokenKind::Less
                    | TokenKind::LessEqual
                    | TokenKind::Greater
                    | TokenKind::GreaterEqual
                    | TokenKind::Equal
                    | TokenKind::NotEqual
                    | TokenKind::In
            ),
            TokenSet::Openers => matches!(
                kind,
                TokenKind::LParen | TokenKind::LBracket | TokenKind::LBrace
            ),
            TokenSet::AccessStarts => matches!(kind, TokenKind::Dot | TokenKind::LBracket),
            TokenSet::ExpressionStarts => match kind {
                TokenKind::Number
                | TokenKind::Text
                | TokenKind::True
                | TokenKind::False
                | TokenKind::LParen
                | TokenKind::LBracket
                | TokenKind::LBrace
                | TokenKind::Not
                | TokenKind::Minus
                | TokenKind::If => true,
                _ => kind.is_ident(),
            },
        }
    }
}
