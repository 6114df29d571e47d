//! Types with resolved names.

use values::TypeName;

/// A type in which each name is a full name.
#[derive(Drop)]
pub enum QualifiedType {
    /// The type `String`.
    Text,
    /// The type `Long`.
    Long,
    /// The type `Boolean`, also written `Bool`.
    Boolean,
    /// The extension type `decimal`.
    Decimal,
    /// The extension type `ipaddr`.
    Ipaddr,
    /// A set of values of one type.
    Set(Box<QualifiedType>),
    /// A record: each key with its type, and whether it is required.
    Record(Vec<(String, QualifiedType, bool)>),
    /// Entities of the type with this full name.
    Entity(TypeName),
    /// The common type with this full name.
    Common(TypeName),
}

/// The declaration of a common type, with its full name.
#[derive(Drop)]
pub struct ResolvedCommon {
    /// Its full name.
    pub name: TypeName,
    /// Its definition, with resolved names.
    pub ty: QualifiedType,
}
