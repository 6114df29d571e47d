//! Errors of evaluation.
ghost use Rattle.std.specs.Prelude.{◌≡◌};
ghost use Rattle.evaluator.specs.declared.fault.EvalFault.TheVariants.{NoMemory};

use std::alloc::{AllocError, AllocFailed};
use thiserror::Error;

/// An error of evaluation.
#[derive(Clone, Copy, Debug, Error)]
pub enum EvalFault {
    /// An attribute of an entity that is not stored was accessed.
    #[error("entity does not exist")]
    EntityDoesNotExist,
    /// The record does not have this field, or the stored entity does not have this attribute.
    #[error("attribute does not exist")]
    AttrDoesNotExist,
    /// The operation is not defined for an operand of this kind.
    #[error("operand of the wrong type")]
    TypeError,
    /// The result of arithmetic is outside signed 64 bits.
    #[error("integer overflow")]
    ArithBoundsError,
    /// The string operand of `decimal` does not denote a decimal, or the string operand of `ip` does not denote an IP
    /// address.
    #[error("invalid decimal or IP address")]
    ExtensionError,
    /// An allocation failed.
    #[error("out of memory")]
    NoMemory,
}

impl From<AllocError> for EvalFault {
    ghost from_gives = { λ _ e. e ≡ NoMemory };

    fn from(_error: AllocError) -> EvalFault {
        EvalFault::NoMemory
    }
}

impl<T: Drop> From<AllocFailed<T>> for EvalFault {
    ghost from_gives = { λ _ e. e ≡ NoMemory };

    fn from(_error: AllocFailed<T>) -> EvalFault {
        EvalFault::NoMemory
    }
}
