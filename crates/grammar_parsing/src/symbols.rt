//! Tokens whose meaning depends only on their kind.

ghost use Rattle.std.specs.Prelude.{◌≡◌, IfErr, Option};
ghost use Rattle.grammar_syntax.specs.declared.token.TokenKind as kinds;
ghost use Rattle.grammar_syntax.specs.ParsesTo.{ParsesTo};
ghost use Rattle.grammar_syntax.specs.declared.fault.StopCause.TheVariants as halt;
ghost use Rattle.grammar_parsing.specs.Expressions.{boolean_of, variable_of, sign_of, comparison_of};
ghost use Rattle.grammar_parsing.specs.inner.Reading as spec;

use grammar_syntax::{Comparison, Cursor, RequestKeyword, Sign, StopCause, TokenKind};

/// Values that are the meanings of some kinds of tokens.
pub(crate) trait Symbol: Copy {
    /// The meaning of tokens of each kind, if they have one.
    ghost meaning: { kinds.TokenKind → Option Self };

    /// Returns the meaning of tokens of this kind, if they have one.
    fn of(kind: TokenKind) -> Option<Self>
        ensures { result ≡ meaning kind };
}

impl Symbol for bool {
    ghost meaning = { boolean_of };

    fn of(kind: TokenKind) -> Option<bool> {
        match kind {
            TokenKind::True => Some(true),
            TokenKind::False => Some(false),
            _ => None,
        }
    }
}

impl Symbol for RequestKeyword {
    ghost meaning = { variable_of };

    fn of(kind: TokenKind) -> Option<RequestKeyword> {
        match kind {
            TokenKind::Principal => Some(RequestKeyword::Principal),
            TokenKind::Action => Some(RequestKeyword::Action),
            TokenKind::Resource => Some(RequestKeyword::Resource),
            TokenKind::Context => Some(RequestKeyword::Context),
            _ => None,
        }
    }
}

impl Symbol for Sign {
    ghost meaning = { sign_of };

    fn of(kind: TokenKind) -> Option<Sign> {
        match kind {
            TokenKind::Plus => Some(Sign::Plus),
            TokenKind::Minus => Some(Sign::Minus),
            _ => None,
        }
    }
}

impl Symbol for Comparison {
    ghost meaning = { comparison_of };

    fn of(kind: TokenKind) -> Option<Comparison> {
        match kind {
            TokenKind::Less => Some(Comparison::Less),
            TokenKind::LessEqual => Some(Comparison::LessOrEqual),
            TokenKind::Greater => Some(Comparison::Greater),
            TokenKind::GreaterEqual => Some(Comparison::GreaterOrEqual),
            TokenKind::Equal => Some(Comparison::Equal),
            TokenKind::NotEqual => Some(Comparison::NotEqual),
            TokenKind::In => Some(Comparison::In),
            _ => None,
        }
    }
}

/// Parses a token whose kind has a meaning of this type, and returns the meaning. Consumes nothing if there is no next
/// token, or it has no such meaning.
///
/// The only error is `Unexpected`.
#[tactic(auto, unfolding(crate::specs::inner::Reading::symbol))]
pub(crate) fn take_symbol<S: Symbol>(tokens: &mut Cursor<'_>) -> Result<S, StopCause>
    ensures reads { ParsesTo (spec.symbol S.meaning tokens.old.rest.now) result tokens.new.rest.now }
    ensures only { IfErr result (λ why. why ≡ halt.Unexpected) }
{
    let [token, rest @ ..] = tokens.rest else {
        return Err(StopCause::Unexpected);
    };
    match S::of(token.kind) {
        Some(meant) => {
            tokens.rest = rest;
            Ok(meant)
        }
        None => Err(StopCause::Unexpected),
    }
}
