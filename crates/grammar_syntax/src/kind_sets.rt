//! Sets of token kinds.

ghost use Rattle.std.specs.Prelude.{◌≡◌};
ghost use Rattle.grammar_syntax.specs.Included.{included as of_names};
ghost use Rattle.grammar_syntax.specs.Kinds.{Kinds, only, same_kind};

use crate::token::TokenKind;

/// A set of token kinds.
pub trait KindSet: Copy {
    /// The kinds in a set, as contracts see them.
    ghost included: { Self → Kinds };

    /// Returns whether tokens of this kind are in the set.
    fn includes(self, kind: TokenKind) -> bool
        ensures { result ≡ included self kind };
}

/// Returns whether two kinds are equal.
pub(crate) fn same_kind(a: TokenKind, b: TokenKind) -> bool
    ensures { result ≡ same_kind a b }
{
    a == b
}

/// A kind, as the set that has only this member.
impl KindSet for TokenKind {
    ghost included = { only };

    fn includes(self, kind: TokenKind) -> bool {
        same_kind(kind, self)
    }
}

/// The sets that the parsers of names use.
#[derive(Clone, Copy)]
pub enum NameSet {
    /// Identifiers: words that are not reserved.
    Identifiers,
    /// What follows a `::` in a name: an identifier, or a string without `\*`.
    Pieces,
    /// `?principal` and `?resource`.
    Slots,
}

impl KindSet for NameSet {
    ghost included = { of_names };

    fn includes(self, kind: TokenKind) -> bool {
        match self {
            NameSet::Identifiers => kind.is_ident(),
            NameSet::Pieces => match kind {
                TokenKind::Text => true,
                _ => kind.is_ident(),
            },
            NameSet::Slots => matches!(kind, TokenKind::PrincipalSlot | TokenKind::ResourceSlot),
        }
    }
}
