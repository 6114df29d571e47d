//! Expanded shapes and contexts: each common type is replaced by its definition.
ghost use Rattle.std.specs.Prelude.{◌≡◌, ◌≢◌, Some, MatchResult, map, option_map};
ghost use Rattle.schema_types.specs.QualifiedViews.{qualified_view};
ghost use Rattle.schema_types.specs.Cedar.{record_of, no_fields};
ghost use Rattle.schema_types.specs.CedarViews.{cedar_view};
ghost use Rattle.schema_types.specs.Expansions.{Declarations};
ghost use Rattle.schema_types.specs.TypeTables.{AreWritten};
ghost use Rattle.schema_types.specs.TableViews.{type_table};
ghost use Rattle.schema_types.specs.declared.fault.SchemaFault.TheVariants as SchemaFault;
ghost use Rattle.schema_reading.specs.ResolvedViews.{resolved_entity_type_view};
ghost use Rattle.schema.specs.inner.Making.{IsClosedAt, IsMade, IsRefusedAt, AddsShape, AreShapesClosed};
ghost use Rattle.schema.specs.inner.Making.{SomeShapeIsRefused, AreShapes};

use crate::maps::put;
use crate::parts::EntityDecl;
use plain::{Items, Shared};
use schema_reading::ResolvedEntityType;
use schema_types::{CedarType, QualifiedType, SchemaFault, Table, write_whole};
use std::alloc::Global;
use std::collections::BTreeMap;
use values::TypeName;

/// Returns the record without attributes.
fn no_attributes(alloc: Global) -> Result<CedarType, SchemaFault>
    ensures { MatchResult result (λ t. cedar_view t ≡ record_of no_fields) (λ f. f ≡ SchemaFault.NoMemory) }
{
    let fields = Shared::new(alloc, Items::new(alloc))?;
    Ok(CedarType::Record(fields))
}

/// Returns the expanded type of a shape or a context, or a record without attributes if it is missing. The only errors
/// are `TypeTooLarge` (25) and `NoMemory`.
pub(crate) fn make_record(
    alloc: Global,
    ty: &Option<QualifiedType>,
    table: &Table,
) -> Result<CedarType, SchemaFault>
    ghost commons: { Declarations }
    requires table { AreWritten commons (type_table table.now) }
    requires closed { IsClosedAt commons (option_map qualified_view ty.now) }
    ensures { MatchResult result (λ t. IsMade commons (option_map qualified_view ty.now) (cedar_view t))
        (λ f. f ≢ SchemaFault.NoMemory → IsRefusedAt commons (option_map qualified_view ty.now) f) }
{
    match ty {
        Some(ty) => write_whole(alloc, ty, table),
        None => no_attributes(alloc),
    }
}

/// Adds the shape of an entity type.
fn add_shape(
    alloc: Global,
    entity_type: &ResolvedEntityType,
    table: &Table,
    shapes: &mut BTreeMap<TypeName, EntityDecl>,
) -> Result<(), SchemaFault>
    ghost commons: { Declarations }
    requires table { AreWritten commons (type_table table.now) }
    requires closed { IsClosedAt commons (option_map qualified_view entity_type.now.shape) }
    ensures { MatchResult result
        (λ u. AddsShape commons (resolved_entity_type_view entity_type.now) shapes.old shapes.new)
        (λ f. f ≢ SchemaFault.NoMemory → IsRefusedAt commons (option_map qualified_view entity_type.now.shape) f) }
{
    let name = entity_type.name.copy()?;
    let shape = make_record(alloc, &entity_type.shape, table)?;
    put(shapes, name, EntityDecl { shape })?;
    Ok(())
}

/// Returns the shapes of entity types, by their names. The only errors are `TypeTooLarge` (25) and `NoMemory`.
pub(crate) fn make_shapes(
    alloc: Global,
    entity_types: &[ResolvedEntityType],
    table: &Table,
) -> Result<BTreeMap<TypeName, EntityDecl>, SchemaFault>
    ghost commons: { Declarations }
    requires table { AreWritten commons (type_table table.now) }
    requires closed { AreShapesClosed commons (map resolved_entity_type_view entity_types.now) }
    ensures { MatchResult result (λ shapes. AreShapes commons (map resolved_entity_type_view entity_types.now) shapes)
        (λ f. f ≢ SchemaFault.NoMemory
        → SomeShapeIsRefused commons (map resolved_entity_type_view entity_types.now) f) }
{
    let mut shapes = BTreeMap::new(alloc);
    for entity_type in entity_types {
        add_shape(alloc, entity_type, table, &mut shapes)?;
    }
    Ok(shapes)
}
