//! Errors of tokenizing.
ghost use Rattle.std.specs.Prelude.{◌≡◌};
ghost use Rattle.grammar_syntax.specs.declared.lex_fault.LexFault.TheVariants.{NoMemory};

use std::alloc::{AllocError, AllocFailed};
use thiserror::Error;

/// An error of tokenizing a text.
#[derive(Clone, Copy, PartialEq, Eq, Debug, Error)]
pub enum LexFault {
    /// An allocation failed.
    #[error("policy 1: out of memory")]
    NoMemory,
    /// No whitespace, comment or token starts at this byte, counted from 0.
    #[error("policy 10: invalid token at byte {0}")]
    BadToken(usize),
}

impl From<AllocError> for LexFault {
    ghost from_gives = { λ _ e. e ≡ NoMemory };

    fn from(_error: AllocError) -> LexFault {
        LexFault::NoMemory
    }
}

impl<T: Drop> From<AllocFailed<T>> for LexFault {
    ghost from_gives = { λ _ e. e ≡ NoMemory };

    fn from(_error: AllocFailed<T>) -> LexFault {
        LexFault::NoMemory
    }
}
