//! The content of a schema file, before names are resolved.

use plain::{Items, Text};
use schema_types::RawType;
use values::TypeName;

/// A common type: its name within its namespace, and its type.
#[derive(Drop)]
pub(crate) struct StatedCommon {
    pub name: TypeName,
    pub ty: RawType,
}

/// An entity type: its name within its namespace, its parent types and its shape.
#[derive(Drop)]
pub(crate) struct StatedEntityType {
    pub name: TypeName,
    /// The names of its parent types, as its `memberOfTypes` lists them.
    pub parents: Items<TypeName>,
    /// The type of the record of its entities' attributes, if the file has one.
    pub shape: Option<RawType>,
}

/// What an action applies to: the types of principals and resources, and the type of the context, if there is one.
#[derive(Drop)]
pub(crate) struct StatedAppliesTo {
    pub principals: Items<TypeName>,
    pub resources: Items<TypeName>,
    /// The type of the context; `None` if the file has none: the context is then empty.
    pub context: Option<RawType>,
}

/// An action's parent: its id, and its type if the file has one.
#[derive(Drop)]
pub struct StatedParent {
    /// The type of the parent; `None` means the type of the actions of the same namespace.
    pub type_name: Option<TypeName>,
    pub id: Text,
}

/// An action: its id within its namespace, its parents, and what it applies to, if the file has its `appliesTo`.
#[derive(Drop)]
pub(crate) struct StatedAction {
    pub id: Text,
    pub parents: Items<StatedParent>,
    /// What it applies to; `None` if the file has no `appliesTo` for it, so that it applies to no request.
    pub applies_to: Option<StatedAppliesTo>,
}

/// A namespace with its declarations; the empty namespace has no name.
#[derive(Drop)]
pub(crate) struct StatedNamespace {
    pub name: Option<TypeName>,
    pub commons: Items<StatedCommon>,
    pub entity_types: Items<StatedEntityType>,
    pub actions: Items<StatedAction>,
}
