//! Errors of parsing policies.
ghost use Rattle.std.specs.Prelude.{◌≡◌};
ghost use Rattle.policy_grammar.specs.declared.fault.ReadFault.TheVariants.{NoMemory};
ghost use Rattle.policy_grammar.specs.Faults.{code_of, place_of, of_lexing, of_desugaring};

use grammar_desugaring::{DesugarFault, LexFault};
use std::alloc::{AllocError, AllocFailed};
use thiserror::Error;

/// An error of parsing. Each offset is that of a byte, counted from 0.
#[derive(Clone, Copy, PartialEq, Eq, Debug, Error)]
pub enum ReadFault {
    /// An allocation failed.
    #[error("policy 1: out of memory")]
    NoMemory,
    /// Neither whitespace nor a comment nor a token starts at this byte: for example, a string begins here that is not
    /// closed, or has a bad escape.
    #[error("policy 10: invalid token at byte {0}")]
    BadToken(usize),
    /// The first token that cannot follow those before it. The offset is the text's length if the text ends too early.
    #[error("policy 11: unexpected token at byte {0}")]
    Unexpected(usize),
    /// A number outside signed 64 bits, at its first digit. A minus directly before a number belongs to it, unless the
    /// minus is a subtraction, or `.` or `[` follows the number.
    #[error("policy 12: number outside signed 64 bits at byte {0}")]
    NumberRange(usize),
    /// A call of an unknown function or method. The offset is that of its name.
    #[error("policy 13: unknown function or method at byte {0}")]
    UnknownCall(usize),
    /// A call of a known function or method with a wrong number of arguments. The offset is that of its name.
    #[error("policy 14: wrong number of arguments at byte {0}")]
    Arity(usize),
    /// A name that occurs earlier: a key of a record, an annotation (at its `@`), or a policy's name in a file (at the
    /// policy's first token).
    #[error("policy 15: repeated key, annotation or policy id at byte {0}")]
    RepeatedKey(usize),
    /// The first token that cannot follow those before it, if it is `?principal` or `?resource`.
    #[error("policy 16: template slot at byte {0}; templates are not supported")]
    Slot(usize),
    /// The token that would open level 65 of nesting; or, at offset 0, a policy whose core expression is higher than
    /// 1,000 or has over 1,000,000 nodes.
    #[error("policy 17: nested too deeply, or too large, at byte {0}")]
    TooDeep(usize),
    /// A policy parsed alone, or a uid, of over 262,144 bytes; or a file of over 8,388,608. A policy in a file has no
    /// limit of its own.
    #[error("policy 18: text longer than 262,144 bytes, or file longer than 8,388,608")]
    TooLong,
    /// The name of a policy in a file is empty, or has over 256 bytes.
    #[error("policy 19: policy id of 0 bytes, or of over 256")]
    BadId,
}

impl ReadFault {
    /// Returns the error's code.
    pub fn code(self) -> u8
        ensures { result ≡ code_of self }
    {
        match self {
            ReadFault::NoMemory => 1,
            ReadFault::BadToken(_) => 10,
            ReadFault::Unexpected(_) => 11,
            ReadFault::NumberRange(_) => 12,
            ReadFault::UnknownCall(_) => 13,
            ReadFault::Arity(_) => 14,
            ReadFault::RepeatedKey(_) => 15,
            ReadFault::Slot(_) => 16,
            ReadFault::TooDeep(_) => 17,
            ReadFault::TooLong => 18,
            ReadFault::BadId => 19,
        }
    }

    /// Returns the byte offset of the error: 0 for `TooLong` and `BadId`, and `None` for `NoMemory`.
    pub fn place(self) -> Option<usize>
        ensures { result ≡ place_of self }
    {
        match self {
            ReadFault::NoMemory => None,
            ReadFault::BadToken(at)
            | ReadFault::Unexpected(at)
            | ReadFault::NumberRange(at)
            | ReadFault::UnknownCall(at)
            | ReadFault::Arity(at)
            | ReadFault::RepeatedKey(at)
            | ReadFault::Slot(at)
            | ReadFault::TooDeep(at) => Some(at),
            ReadFault::TooLong | ReadFault::BadId => Some(0),
        }
    }
}

impl From<AllocError> for ReadFault {
    ghost from_gives = { λ _ e. e ≡ NoMemory };

    fn from(_error: AllocError) -> ReadFault {
        ReadFault::NoMemory
    }
}

impl<T: Drop> From<AllocFailed<T>> for ReadFault {
    ghost from_gives = { λ _ e. e ≡ NoMemory };

    fn from(_error: AllocFailed<T>) -> ReadFault {
        ReadFault::NoMemory
    }
}

impl From<LexFault> for ReadFault {
    ghost from_gives = { λ error e. e ≡ of_lexing error };

    fn from(error: LexFault) -> ReadFault {
        match error {
            LexFault::NoMemory => ReadFault::NoMemory,
            LexFault::BadToken(at) => ReadFault::BadToken(at),
        }
    }
}

impl From<DesugarFault> for ReadFault {
    ghost from_gives = { λ fault e. e ≡ of_desugaring fault };

    fn from(fault: DesugarFault) -> ReadFault {
        match fault {
            DesugarFault::NumberRange(at) => ReadFault::NumberRange(at),
            DesugarFault::UnknownCall(at) => ReadFault::UnknownCall(at),
            DesugarFault::Arity(at) => ReadFault::Arity(at),
            DesugarFault::RepeatedKey(at) => ReadFault::RepeatedKey(at),
        }
    }
}
