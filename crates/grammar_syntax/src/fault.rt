//! Errors of parsing tokens.
ghost use Rattle.std.specs.Prelude.{◌≡◌};
ghost use Rattle.grammar_syntax.specs.declared.fault.SyntaxFault.TheVariants as fault;
ghost use Rattle.grammar_syntax.specs.declared.fault.StopCause.TheVariants as halt;

use std::alloc::AllocError;
use thiserror::Error;

/// An error of parsing a list of tokens. The index is that of the token at which parsing stops, or the number of tokens
/// if the tokens end too early.
#[derive(Clone, Copy, PartialEq, Eq, Debug, Error)]
pub enum SyntaxFault {
    /// An allocation failed.
    #[error("policy 1: out of memory")]
    NoMemory,
    /// The token at the index cannot occur there, or the tokens end too early.
    #[error("policy 11: token {0} is unexpected")]
    Unexpected(usize),
    /// The token at the index is `?principal` or `?resource`, which cannot occur anywhere.
    #[error("policy 16: token {0} is a template slot")]
    Slot(usize),
    /// The token at the index could occur there, but would open one level of nesting too many.
    #[error("policy 17: token {0} is nested too deeply")]
    TooDeep(usize),
}

impl From<AllocError> for SyntaxFault {
    ghost from_gives = { λ _ e. e ≡ fault.NoMemory };

    fn from(_error: AllocError) -> SyntaxFault {
        SyntaxFault::NoMemory
    }
}

/// The reason why parsing stops at the next token.
#[derive(Clone, Copy, PartialEq, Eq)]
pub enum StopCause {
    /// An allocation failed.
    NoMemory,
    /// The next token cannot occur there, or the tokens end too early.
    Unexpected,
    /// The next token would open one level of nesting too many.
    TooDeep,
}

impl From<AllocError> for StopCause {
    ghost from_gives = { λ _ e. e ≡ halt.NoMemory };

    fn from(_error: AllocError) -> StopCause {
        StopCause::NoMemory
    }
}
