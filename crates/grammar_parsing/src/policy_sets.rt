//! The sets of token kinds that the parsers of policies use.
ghost use Rattle.grammar_parsing.specs.inner.Included.{included as of_policies};

use grammar_syntax::{KindSet, TokenKind};

/// A set of token kinds.
#[derive(Clone, Copy)]
pub(crate) enum PolicySet {
    /// The name of an annotation: any word, reserved or not.
    Words,
    /// `permit` and `forbid`.
    Effects,
    /// `when` and `unless`.
    ConditionWords,
    /// `@`, `permit` and `forbid`: the tokens that a policy may begin with.
    PolicyStarts,
}

impl KindSet for PolicySet {
    ghost included = { of_policies };

    fn includes(self, kind: TokenKind) -> bool {
        match self {
            PolicySet::Words => kind.is_reserved() || kind.is_ident(),
            PolicySet::Effects => matches!(kind, TokenKind::Permit | TokenKind::Forbid),
            PolicySet::ConditionWords => matches!(kind, TokenKind::When | TokenKind::Unless),
            PolicySet::PolicyStarts => matches!(
                kind,
                TokenKind::At | TokenKind::Permit | TokenKind::Forbid
            ),
        }
    }
}
