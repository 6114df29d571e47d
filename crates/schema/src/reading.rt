//! Parsing of a schema from bytes.
ghost use Rattle.std.specs.Prelude.{◌≢◌, IfOk, MatchResult};
ghost use Rattle.ancestor_search.specs.contracts.searched.SearchedAncestry.TheImpl as searched;
ghost use Rattle.schema_types.specs.Expansions.{Declarations};
ghost use Rattle.schema_types.specs.TypeTables.{AreWritten, AreWhole};
ghost use Rattle.schema_types.specs.TableViews.{type_table};
ghost use Rattle.schema_types.specs.declared.fault.SchemaFault.TheVariants as SchemaFault;
ghost use Rattle.schema_reading.specs.ResolvedViews.{resolved_view};
ghost use Rattle.schema_reading.specs.Laws.{DeclaresItsCommonTypes};
ghost use Rattle.schema_reading.specs.Naming.{DescribesFile};
ghost use Rattle.schema.specs.Schemas.{IsSchemaOf, RefusedFor};
ghost use Rattle.schema.specs.inner.ByNaming.{IsUnsound};
ghost use Rattle.schema.specs.Views.{schema_view};
ghost use Rattle.schema.specs.inner.Reading.{AreEdges, AreTypesClosed, AreTypesOf};
ghost use Rattle.schema.specs.inner.Reading.{AreHierarchiesOf, TypesRefused, EdgesRefused};

use crate::answers::Schema;
use crate::cycles::demand_no_cycle;
use crate::environments::make_places;
use crate::hierarchies::{action_edges, make_members, type_edges, uids_of};
use crate::label::label_of;
use crate::laws::schemas_are_read_as_stated;
use crate::listed_environments::environments_in_order;
use crate::numbering::{NumberedAncestors, ancestors_of_each};
use crate::parts::{EntityDecl, Environment};
use crate::shapes::make_shapes;
use crate::type_numbers::{TypeNumbers, number_types};
use ancestor_search::Searched;
use plain::{Items, NoMemory};
use schema_reading::{
    ResolvedFile, files_name_their_entity_types, files_name_their_own, read_named,
};
use schema_types::{SchemaFault, Table, demand_sizes, write_commons};
use std::alloc::Global;
use std::collections::BTreeMap;
use values::{EntityUid, TypeName};

/// The shapes of a schema, by the names of their entity types, and its environments.
#[derive(Drop)]
struct Types {
    shapes: BTreeMap<TypeName, EntityDecl>,
    environments: Items<Environment>,
}

/// Actions, their parents and their ancestors, and the ancestors of each entity type.
#[derive(Drop)]
struct Hierarchies {
    actions: Items<EntityUid>,
    members: BTreeMap<EntityUid, Items<EntityUid>>,
    above: NumberedAncestors,
    types: TypeNumbers,
}

/// Returns the hierarchy of actions, if no action is its own ancestor. The only errors are `ActionCycle` (24), and
/// `NoMemory`.
fn demand_edges(alloc: Global, found: &ResolvedFile) -> Result<Searched, SchemaFault>
    ensures { MatchResult result (λ s. AreEdges (resolved_view found.now) (searched.parents-value.it s))
        (λ f. f ≢ SchemaFault.NoMemory → EdgesRefused (resolved_view found.now) f) }
{
    let actions = found.actions.as_slice();
    let edges = action_edges(alloc, actions)?;
    demand_no_cycle(&edges)?;
    Ok(edges)
}

/// Returns the shapes and the environments of a file. `commons` declares each common type named in a shape or a context
/// of the file. `table` has the expansion of each common type whose expansion is not too large. The only errors are
/// `TypeTooLarge` (25), and `NoMemory`.
fn make_types(alloc: Global, found: &ResolvedFile, table: &Table) -> Result<Types, SchemaFault>
    ghost commons: { Declarations }
    requires written { AreWritten commons (type_table table.now) }
    requires closed { AreTypesClosed commons (resolved_view found.now) }
    ensures { MatchResult result (λ t. AreTypesOf commons (resolved_view found.now) t)
        (λ f. f ≢ SchemaFault.NoMemory → TypesRefused commons (resolved_view found.now) f) }
{
    let entity_types = found.entity_types.as_slice();
    let actions = found.actions.as_slice();
    let shapes = make_shapes(alloc, entity_types, table)?;
    let places = make_places(alloc, actions, table)?;
    let environments = environments_in_order(alloc, places)?;
    Ok(Types {
        shapes,
        environments,
    })
}

/// Returns the hierarchies of a file, where `edges` is the hierarchy of its actions.
fn make_hierarchies(
    alloc: Global,
    found: &ResolvedFile,
    edges: &Searched,
) -> Result<Hierarchies, NoMemory>
    requires { AreEdges (resolved_view found.now) (searched.parents-value.it edges.now) }
    ensures { IfOk result (λ h. AreHierarchiesOf (resolved_view found.now) h) }
{
    let actions = found.actions.as_slice();
    let entity_types = found.entity_types.as_slice();
    let members = make_members(alloc, edges, actions)?;
    let uids = uids_of(alloc, &members)?;
    let above = ancestors_of_each(alloc, edges, uids.as_slice())?;
    let type_edges = type_edges(alloc, entity_types)?;
    let types = number_types(alloc, &type_edges, entity_types)?;
    Ok(Hierarchies {
        actions: uids,
        members,
        above,
        types,
    })
}

/// Returns the schema of `bytes`, whose declarations, with resolved names, are `found`. `edges` is the hierarchy of the
/// actions, and has no cycle; `table` has the expanded common types, none of which is too large. The only errors are
/// `TypeTooLarge` (25), for a shape or a context, and `NoMemory`.
fn make_schema(
    alloc: Global,
    bytes: &[u8],
    found: &ResolvedFile,
    edges: &Searched,
    table: &Table,
) -> Result<Schema, SchemaFault>
    requires states { DescribesFile bytes.now (resolved_view found.now) }
    requires written { AreWritten (resolved_view found.now).commons (type_table table.now) }
    requires whole { AreWhole (resolved_view found.now).commons (type_table table.now) }
    requires own { DeclaresItsCommonTypes (resolved_view found.now) }
    requires edges { AreEdges (resolved_view found.now) (searched.parents-value.it edges.now) }
    ensures { MatchResult result (λ s. IsSchemaOf bytes.now (schema_view s))
        (λ f. f ≢ SchemaFault.NoMemory
        → TypesRefused (resolved_view found.now).commons (resolved_view found.now) f) }
{
    files_name_their_entity_types();
    schemas_are_read_as_stated();
    let label = label_of(alloc, bytes)?;
    let hierarchies = make_hierarchies(alloc, found, edges)?;
    let types = make_types(alloc, found, table)?;
    Ok(Schema {
        label,
        environments: types.environments,
        actions: hierarchies.actions,
        shapes: types.shapes,
        member_of: hierarchies.members,
        action_numbers: hierarchies.above.numbers,
        action_ancestor_spans: hierarchies.above.spans,
        type_numbers: hierarchies.types.numbers,
        type_ancestor_spans: hierarchies.types.spans,
    })
}

/// Returns the schema of `bytes`, whose declarations, with resolved names, are `found`.
///
/// # Errors
///
/// In this order:
///
/// - `TypeCycle` (23): a common type refers to itself, directly or indirectly.
/// - `ActionCycle` (24): an action is its own ancestor.
/// - `TypeTooLarge` (25): a type, expanded, has over 10,000 nodes or is over 64 deep.
/// - `NoMemory` (1): an allocation failed; possible at any point.
fn sound_schema(alloc: Global, bytes: &[u8], found: &ResolvedFile) -> Result<Schema, SchemaFault>
    requires states { DescribesFile bytes.now (resolved_view found.now) }
    requires own { DeclaresItsCommonTypes (resolved_view found.now) }
    ensures { MatchResult result (λ s. IsSchemaOf bytes.now (schema_view s))
        (λ f. f ≢ SchemaFault.NoMemory → IsUnsound (resolved_view found.now) f) }
{
    let commons = found.commons.as_slice();
    let table = write_commons(alloc, commons)?;
    let edges = demand_edges(alloc, found)?;
    demand_sizes(commons, &table)?;
    make_schema(alloc, bytes, found, &edges, &table)
}

/// Parses a schema in JSON.
///
/// # Errors
///
/// In this order; `NoMemory` is possible at any point:
///
/// - `NotJson` (20): the bytes are not JSON.
/// - `BadShape` (21): the JSON does not have the form of a schema; or it has this form, but a shape or a context is
///   not a record.
/// - `UnknownName` (22): a name does not resolve.
/// - `TypeCycle` (23): a common type refers to itself, directly or indirectly.
/// - `ActionCycle` (24): an action is its own ancestor.
/// - `TypeTooLarge` (25): a type, expanded, has over 10,000 nodes or is over 64 deep.
/// - `NoMemory` (1): an allocation failed.
pub fn read_schema(alloc: Global, bytes: &[u8]) -> Result<Schema, SchemaFault>
    ensures { MatchResult result (λ s. IsSchemaOf bytes.now (schema_view s))
        (λ f. f ≢ SchemaFault.NoMemory → RefusedFor bytes.now f) }
{
    files_name_their_own();
    schemas_are_read_as_stated();
    let found = read_named(alloc, bytes)?;
    sound_schema(alloc, bytes, &found)
}
