//! Expands any type, by the table of common types.
ghost use Rattle.std.specs.Prelude.{◌≢◌, MatchResult};
ghost use Rattle.schema_types.specs.QualifiedViews.{qualified_view};
ghost use Rattle.schema_types.specs.CedarViews.{cedar_view};
ghost use Rattle.schema_types.specs.Expansions.{Declarations};
ghost use Rattle.schema_types.specs.TypeTables.{AreWritten};
ghost use Rattle.schema_types.specs.TableViews.{type_table};
ghost use Rattle.schema_types.specs.Outcome.{IsWhole, TypeRefused};
ghost use Rattle.schema_types.specs.Mentions.{IsClosed};
ghost use Rattle.schema_types.specs.declared.fault.SchemaFault.TheVariants as SchemaFault;

use crate::Table;
use crate::cedar::CedarType;
use crate::fault::SchemaFault;
use crate::qualified::QualifiedType;
use crate::size::{is_within, size_of};
use crate::write::write;
use std::alloc::Global;

/// Returns the expansion of a type whose common types are all in the table.
///
/// # Errors
///
/// - `TypeTooLarge` (25): the expansion has over 10,000 nodes or is over 64 deep.
/// - `NoMemory` (1): an allocation failed; possible at any point.
pub fn write_whole(
    alloc: Global,
    ty: &QualifiedType,
    table: &Table,
) -> Result<CedarType, SchemaFault>
    ghost commons: { Declarations }
    requires table { AreWritten commons (type_table table.now) }
    requires closed { IsClosed commons (qualified_view ty.now) }
    ensures { MatchResult result (λ t. IsWhole commons (qualified_view ty.now) (cedar_view t))
        (λ f. f ≢ SchemaFault.NoMemory → TypeRefused commons (qualified_view ty.now) f) }
{
    let Some(size) = size_of(ty, table) else {
        return Err(SchemaFault::TypeTooLarge);
    };
    if !is_within(size) {
        return Err(SchemaFault::TypeTooLarge);
    }
    match write(alloc, ty, table)? {
        Some(whole) => Ok(whole),
        None => Err(SchemaFault::TypeTooLarge),
    }
}
