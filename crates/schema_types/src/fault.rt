//! Errors of parsing a schema.
ghost use Rattle.std.specs.Prelude.{◌≡◌};

use plain::NoMemory;
use std::alloc::AllocFailed;
use thiserror::Error;

/// The first error of the bytes of a schema.
#[derive(Clone, Copy, PartialEq, Eq, Debug, Error)]
pub enum SchemaFault {
    /// An allocation failed.
    #[error("schema 1: out of memory")]
    NoMemory,
    /// The bytes are not JSON.
    #[error("schema 20: not JSON")]
    NotJson,
    /// The JSON does not have the form of a schema, or a shape or a context is not a record.
    #[error("schema 21: JSON without the form of a schema")]
    BadShape,
    /// A name does not resolve to a type or an action.
    #[error("schema 22: name of no declared type or action")]
    UnknownName,
    /// A common type refers to itself, directly or indirectly.
    #[error("schema 23: common type that contains itself")]
    TypeCycle,
    /// An action is its own ancestor.
    #[error("schema 24: action that is its own ancestor")]
    ActionCycle,
    /// A type, expanded, has over 10,000 nodes or is over 64 deep.
    #[error("schema 25: type of over 10,000 parts, or over 64 deep")]
    TypeTooLarge,
}

impl SchemaFault {
    ghost use Rattle.schema_types.specs.Codes.{code_of};

    /// Returns the error's code (docs/codes.md).
    pub fn code(self) -> u8
        ensures { result ≡ code_of self }
    {
        match self {
            SchemaFault::NoMemory => 1,
            SchemaFault::NotJson => 20,
            SchemaFault::BadShape => 21,
            SchemaFault::UnknownName => 22,
            SchemaFault::TypeCycle => 23,
            SchemaFault::ActionCycle => 24,
            SchemaFault::TypeTooLarge => 25,
        }
    }
}

impl From<NoMemory> for SchemaFault {
    ghost use Rattle.schema_types.specs.declared.fault.SchemaFault.TheVariants.{NoMemory};

    ghost from_gives = { λ _ e. e ≡ NoMemory };

    fn from(_error: NoMemory) -> SchemaFault {
        SchemaFault::NoMemory
    }
}

impl<T: Drop> From<AllocFailed<T>> for SchemaFault {
    ghost use Rattle.schema_types.specs.declared.fault.SchemaFault.TheVariants.{NoMemory};

    ghost from_gives = { λ _ e. e ≡ NoMemory };

    fn from(_error: AllocFailed<T>) -> SchemaFault {
        SchemaFault::NoMemory
    }
}
