//! Types as a schema writes them, before names are resolved.

use values::TypeName;

/// A type as written in a schema.
#[derive(Drop)]
pub enum RawType {
    /// The type `String`.
    Text,
    /// The type `Long`.
    Long,
    /// The type `Boolean`, also written `Bool`.
    Boolean,
    /// The extension type `decimal`.
    Decimal,
    /// The extension type `ipaddr`.
    Ipaddr,
    /// A set of values of one type.
    Set(Box<RawType>),
    /// A record: each key with its type, and whether it is required.
    Record(Vec<(String, RawType, bool)>),
    /// Entities of the type with this name.
    Entity(TypeName),
    /// The common type with this name.
    Common(TypeName),
    /// A name that may mean a common type, an entity type, or a primitive or extension type.
    EntityOrCommon(TypeName),
}
