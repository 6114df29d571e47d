//! The outcome of a policy on a request, and the error of an erroring policy.

use thiserror::Error;

/// The error of an erroring policy (Cedar reference guide, "Errors"). A failed allocation is not such an error.
#[derive(Clone, Copy, Debug, Error)]
pub enum PolicyError {
    /// An attribute of an entity that is not stored was accessed.
    #[error("entity does not exist")]
    EntityDoesNotExist,
    /// An attribute that a record or an entity does not have was accessed.
    #[error("attribute does not exist")]
    AttrDoesNotExist,
    /// An operand has the wrong type.
    #[error("operand of the wrong type")]
    TypeError,
    /// The result of arithmetic is outside signed 64 bits.
    #[error("integer overflow")]
    ArithBoundsError,
    /// The string operand of `decimal` does not denote a decimal, or the string operand of `ip` does not denote an IP
    /// address.
    #[error("invalid decimal or IP address")]
    ExtensionError,
}

/// The outcome of a policy on a request.
#[derive(Clone, Copy)]
pub enum Outcome {
    /// The policy's scope and its conditions are true.
    Satisfied,
    /// The policy's scope is not true, or its conditions are false.
    NotSatisfied,
    /// The policy's scope is true, and its conditions error.
    Errs(PolicyError),
}
