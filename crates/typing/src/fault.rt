//! Errors of validation.
ghost use Rattle.std.specs.Prelude.{◌≡◌};
ghost use Rattle.typing.specs.Codes.{code_of};
ghost use Rattle.typing.specs.declared.fault.TypeFault.TheVariants.{NoMemory};

use plain::NoMemory;
use std::alloc::AllocFailed;
use thiserror::Error;

/// The first error of validating a policy under a schema.
#[derive(Clone, Copy, PartialEq, Eq, Debug, Error)]
pub enum TypeFault {
    /// Code 1: an allocation failed, or a count of references would overflow.
    #[error("type 1: out of memory")]
    NoMemory,
    /// Code 40: the policy names an entity type that is not declared.
    #[error("type 40: undeclared entity type")]
    UnknownType,
    /// Code 41: the policy names an entity of an action type, and no such action is declared.
    #[error("type 41: undeclared action")]
    UnknownAction,
    /// Code 42: an operand does not have the kind of type that its operator demands.
    #[error("type 42: operand of the wrong type")]
    Unexpected,
    /// Code 43: operands that need a common type have none.
    #[error("type 43: types without a common type")]
    NoCommonType,
    /// Code 44: an attribute is not declared, or it is optional and no capability shows that it is present.
    #[error("type 44: attribute undeclared, or optional and not known to be present")]
    AttributeMayBeMissing,
    /// Code 45: a set literal has no members.
    #[error("type 45: empty set literal; the type of its elements is unknown")]
    EmptySet,
    /// Code 46: the argument of `ip` or `decimal` is not a string literal of the extension's grammar.
    #[error("type 46: ip or decimal without a valid string literal")]
    BadExtensionLiteral,
}

impl TypeFault {
    /// Returns the error's code.
    pub fn code(self) -> u8
        ensures { result ≡ code_of self }
    {
        match self {
            TypeFault::NoMemory => 1,
            TypeFault::UnknownType => 40,
            TypeFault::UnknownAction => 41,
            TypeFault::Unexpected => 42,
            TypeFault::NoCommonType => 43,
            TypeFault::AttributeMayBeMissing => 44,
            TypeFault::EmptySet => 45,
            TypeFault::BadExtensionLiteral => 46,
        }
    }
}

impl From<NoMemory> for TypeFault {
    ghost from_gives = { λ _ e. e ≡ NoMemory };

    fn from(_error: NoMemory) -> TypeFault {
        TypeFault::NoMemory
    }
}

impl<T: Drop> From<AllocFailed<T>> for TypeFault {
    ghost from_gives = { λ _ e. e ≡ NoMemory };

    fn from(_error: AllocFailed<T>) -> TypeFault {
        TypeFault::NoMemory
    }
}
