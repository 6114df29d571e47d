//! Expanded types.
ghost use Rattle.std.specs.Prelude.{◌≡◌, IfOk, IfErr};
ghost use Rattle.schema_types.specs.Cedar.{ContainsTypeOrName};
ghost use Rattle.schema_types.specs.CedarViews.{cedar_view};

use plain::{Items, NoMemory, Shared, Text};
use values::TypeName;

/// A type of the policy language, with every common type expanded.
///
/// The content of a type is shared by its copies, so that a common type is stored once, however often it is used.
///
/// Source: Cedar reference guide, "Schema JSON format".
#[derive(Drop)]
pub enum CedarType {
    /// The type `String`.
    Text,
    /// The type `Long`.
    Long,
    /// The type `Boolean`, also written `Bool`.
    Boolean,
    /// The extension type `decimal`.
    Decimal,
    /// The extension type `ipaddr`.
    Ipaddr,
    /// A set of values of one type.
    Set(Shared<CedarType>),
    /// A record: each key with its type, and whether it is required.
    Record(Shared<Items<(Text, CedarType, bool)>>),
    /// Entities of one type.
    Entity(TypeName),
}

impl CedarType {
    /// Returns a copy of the type, which shares its content. Does not allocate.
    ///
    /// # Errors
    ///
    /// - `NoMemory`: the count of references to the content of a set or a record, or to the name of an entity type,
    ///   would overflow. Copies of other types never fail.
    pub fn copy(&self) -> Result<CedarType, NoMemory>
        ensures same { IfOk result (λ ty. ty ≡ self.now) }
        ensures memory { IfErr result (λ e. ContainsTypeOrName (cedar_view self.now)) }
    {
        match self {
            CedarType::Text => Ok(CedarType::Text),
            CedarType::Long => Ok(CedarType::Long),
            CedarType::Boolean => Ok(CedarType::Boolean),
            CedarType::Decimal => Ok(CedarType::Decimal),
            CedarType::Ipaddr => Ok(CedarType::Ipaddr),
            CedarType::Set(element) => Ok(CedarType::Set(element.share()?)),
            CedarType::Record(fields) => Ok(CedarType::Record(fields.share()?)),
            CedarType::Entity(name) => Ok(CedarType::Entity(name.copy()?)),
        }
    }
}
