//! The environments of a schema (each an action with the types of principal and resource), with their contexts. An
//! `EnvironmentKey` is an environment without its context. In contracts `commons` are the common types of the schema.
ghost use Rattle.std.specs.Prelude.{◌≢◌, OnOk, MatchResult, map, option_map};
ghost use Rattle.schema_types.specs.QualifiedViews.{qualified_view};
ghost use Rattle.schema_types.specs.Expansions.{Declarations};
ghost use Rattle.schema_types.specs.TypeTables.{AreWritten};
ghost use Rattle.schema_types.specs.TableViews.{type_table};
ghost use Rattle.schema_types.specs.declared.fault.SchemaFault.TheVariants as SchemaFault;
ghost use Rattle.schema_reading.specs.ResolvedViews.{resolved_applies_to_view, resolved_action_view};
ghost use Rattle.schema.specs.inner.Making.{IsClosedAt, IsRefusedAt, AddsPlace, AddsResources};
ghost use Rattle.schema.specs.inner.Making.{AddsPrincipals, AddsUse, AddsAction, IsContextClosed, IsContextRefused};
ghost use Rattle.schema.specs.inner.Making.{AreContextsClosed, SomeContextIsRefused, ArePlaces};

use crate::listed_environments::make_place;
use crate::maps::put;
use crate::parts::EnvironmentKey;
use crate::shapes::make_record;
use plain::{NoMemory, Shared};
use schema_reading::{ResolvedAction, ResolvedAppliesTo};
use schema_types::{CedarType, SchemaFault, Table};
use std::alloc::Global;
use std::collections::BTreeMap;
use values::{EntityUid, TypeName};

/// Adds one environment with the type of its context to `places`.
fn add_place(
    action: &EntityUid,
    principal: &TypeName,
    resource: &TypeName,
    context: &Shared<CedarType>,
    places: &mut BTreeMap<EnvironmentKey, Shared<CedarType>>,
) -> Result<(), NoMemory>
    ensures { OnOk result (AddsPlace action.now context.now principal.now resource.now places.old places.new) }
{
    let place = make_place(action, principal, resource)?;
    let context = context.share()?;
    put(places, place, context)?;
    Ok(())
}

/// Adds the environments of a principal type with each resource type.
fn add_resources(
    action: &EntityUid,
    principal: &TypeName,
    resources: &[TypeName],
    context: &Shared<CedarType>,
    places: &mut BTreeMap<EnvironmentKey, Shared<CedarType>>,
) -> Result<(), NoMemory>
    ensures { OnOk result (AddsResources action.now context.now resources.now principal.now places.old places.new) }
{
    for resource in resources {
        add_place(action, principal, resource, context, places)?;
    }
    Ok(())
}

/// Adds the environments of each principal type with each resource type.
fn add_principals(
    action: &EntityUid,
    principals: &[TypeName],
    resources: &[TypeName],
    context: &Shared<CedarType>,
    places: &mut BTreeMap<EnvironmentKey, Shared<CedarType>>,
) -> Result<(), NoMemory>
    ensures { OnOk result (AddsPrincipals action.now context.now resources.now principals.now places.old places.new) }
{
    for principal in principals {
        add_resources(action, principal, resources, context, places)?;
    }
    Ok(())
}

/// Adds the environments of an action, given what it applies to.
///
/// # Errors
///
/// - `TypeTooLarge` (25): the type of the action's context, expanded, is too large.
/// - `NoMemory` (1): an allocation failed; possible at any point.
fn add_use(
    alloc: Global,
    action: &EntityUid,
    applied: &ResolvedAppliesTo,
    table: &Table,
    places: &mut BTreeMap<EnvironmentKey, Shared<CedarType>>,
) -> Result<(), SchemaFault>
    ghost commons: { Declarations }
    requires table { AreWritten commons (type_table table.now) }
    requires closed { IsClosedAt commons (option_map qualified_view applied.now.context) }
    ensures { MatchResult result
        (λ u. AddsUse commons action.now (resolved_applies_to_view applied.now) places.old places.new)
        (λ f. f ≢ SchemaFault.NoMemory → IsRefusedAt commons (option_map qualified_view applied.now.context) f) }
{
    let context = make_record(alloc, &applied.context, table)?;
    let shared = Shared::new(alloc, context)?;
    let principals = applied.principals.as_slice();
    let resources = applied.resources.as_slice();
    add_principals(action, principals, resources, &shared, places)?;
    Ok(())
}

/// Adds the environments of an action (none without `appliesTo`), with the errors of [`add_use`].
fn add_action(
    alloc: Global,
    action: &ResolvedAction,
    table: &Table,
    places: &mut BTreeMap<EnvironmentKey, Shared<CedarType>>,
) -> Result<(), SchemaFault>
    ghost commons: { Declarations }
    requires table { AreWritten commons (type_table table.now) }
    requires closed { IsContextClosed commons (resolved_action_view action.now) }
    ensures { MatchResult result (λ u. AddsAction commons (resolved_action_view action.now) places.old places.new)
        (λ f. f ≢ SchemaFault.NoMemory → IsContextRefused commons (resolved_action_view action.now) f) }
{
    match &action.applies_to {
        Some(applied) => add_use(alloc, &action.uid, applied, table, places),
        None => Ok(()),
    }
}

/// Returns the environments of all actions, each with the type of its context.
///
/// # Errors
///
/// - `TypeTooLarge` (25): one of these types, expanded, is too large.
/// - `NoMemory` (1): an allocation failed; possible at any point.
pub(crate) fn make_places(
    alloc: Global,
    actions: &[ResolvedAction],
    table: &Table,
) -> Result<BTreeMap<EnvironmentKey, Shared<CedarType>>, SchemaFault>
    ghost commons: { Declarations }
    requires table { AreWritten commons (type_table table.now) }
    requires closed { AreContextsClosed commons (map resolved_action_view actions.now) }
    ensures { MatchResult result (λ places. ArePlaces commons (map resolved_action_view actions.now) places)
        (λ f. f ≢ SchemaFault.NoMemory → SomeContextIsRefused commons (map resolved_action_view actions.now) f) }
{
    let mut places = BTreeMap::new(alloc);
    for action in actions {
        add_action(alloc, action, table, &mut places)?;
    }
    Ok(places)
}
