//! Errors of parsing an entity, a context or a request.
ghost use Rattle.std.specs.Prelude.{◌≡◌};
ghost use Rattle.entities.specs.Faults.{code_of};
ghost use Rattle.entities.specs.declared.fault.EntityFault.TheVariants.{NoMemory};

use plain::NoMemory;
use std::alloc::AllocFailed;
use thiserror::Error;

/// The first error of JSON as an entity, a context or a request under a schema.
#[derive(Clone, Copy, PartialEq, Eq, Debug, Error)]
pub enum EntityFault {
    /// An allocation failed.
    #[error("entity 1: out of memory")]
    NoMemory,
    /// The JSON does not have the form of an entity, of a context or of a request.
    #[error("entity 30: JSON without the form of an entity, a context or a request")]
    BadShape,
    /// The entity's type is not declared.
    #[error("entity 31: undeclared entity type")]
    UnknownType,
    /// The last word of the entity's type is `Action`: actions are declared by the schema.
    #[error("entity 32: action; only the schema declares actions")]
    ActionEntity,
    /// An attribute, or a member of the context, is not declared.
    #[error("entity 33: undeclared attribute")]
    Undeclared,
    /// A required attribute, or a required member of the context, is missing.
    #[error("entity 34: missing required attribute")]
    Missing,
    /// The value of an attribute, or of a member of the context, is not of its declared type.
    #[error("entity 35: attribute value of the wrong type")]
    WrongType,
    /// A parent has a type that the schema does not allow for a parent of this entity.
    #[error("entity 36: parent of a type that the schema does not allow")]
    BadParent,
    /// The entity is one of its own parents.
    #[error("entity 37: entity that is its own parent")]
    SelfParent,
    /// The entity has tags.
    #[error("entity 38: tags; entity tags are not supported")]
    TagsLeftOut,
    /// The action is not declared, or does not apply to the types of principal and resource. For a context without a
    /// request: no environment has the action.
    #[error("entity 39: action undeclared, or not applicable to these types of principal and resource")]
    NotApplicable,
}

impl EntityFault {
    /// Returns the error's code (docs/codes.md).
    pub fn code(self) -> u8
        ensures { result ≡ code_of self }
    {
        match self {
            EntityFault::NoMemory => 1,
            EntityFault::BadShape => 30,
            EntityFault::UnknownType => 31,
            EntityFault::ActionEntity => 32,
            EntityFault::Undeclared => 33,
            EntityFault::Missing => 34,
            EntityFault::WrongType => 35,
            EntityFault::BadParent => 36,
            EntityFault::SelfParent => 37,
            EntityFault::TagsLeftOut => 38,
            EntityFault::NotApplicable => 39,
        }
    }
}

impl From<NoMemory> for EntityFault {
    ghost from_gives = { λ _ e. e ≡ NoMemory };

    fn from(_error: NoMemory) -> EntityFault {
        EntityFault::NoMemory
    }
}

impl<T: Drop> From<AllocFailed<T>> for EntityFault {
    ghost from_gives = { λ _ e. e ≡ NoMemory };

    fn from(_error: AllocFailed<T>) -> EntityFault {
        EntityFault::NoMemory
    }
}
