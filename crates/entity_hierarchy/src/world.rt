//! The entity data of a decision under a schema.
ghost use Rattle.std.specs.Prelude.{◌≡◌};

use crate::actions::SchemaActions;
use entities::{EntitySource, Schema};
use std::alloc::Global;

/// The entities of a source, and the actions of a schema.
///
/// Contracts see the source and the schema; `entities_under` defines the entities of both.
pub type Entities<'a, S> = entities::Entities<'a, S, SchemaActions<'a>>;

/// Creates the entity data that has the entities of a source and the actions of this schema. Does not allocate.
pub fn entity_data_under<'a, S: EntitySource>(
    alloc: Global,
    source: &'a S,
    schema: &'a Schema,
) -> Entities<'a, S>
    ensures { result ≡ (source.now, schema.now) }
{
    entities::Entities::new(alloc, source, SchemaActions::of(schema))
}
