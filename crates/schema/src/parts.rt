//! The parts of a schema.

use plain::Shared;
use schema_types::CedarType;
use values::{EntityUid, TypeName};

/// The place of an environment: an action with the types of principal and resource.
#[derive(PartialEq, Eq, PartialOrd, Ord, Drop)]
pub struct EnvironmentKey {
    pub action: EntityUid,
    /// The type of the principal.
    pub principal: TypeName,
    /// The type of the resource.
    pub resource: TypeName,
}

/// An environment: an action with the types of principal, resource and context.
#[derive(Drop)]
pub struct Environment {
    pub place: EnvironmentKey,
    /// The type of the context: a record, shared by all environments of an action.
    pub context: Shared<CedarType>,
}

/// A declared entity type.
#[derive(Drop)]
pub struct EntityDecl {
    /// The attributes of its entities, as a record.
    pub shape: CedarType,
}
