//! Expands the common types of a schema.
ghost use Rattle.std.specs.Prelude.{◌≡◌, ◌≢◌, ◌<◌, ◌^◌, OnOk, IfOk, MatchResult, map, option_map, is_some, Some, false};
ghost use Rattle.std.specs.Prelude.{true};
ghost use Rattle.std.specs.BTreeMap.{btree_map_len};
ghost use Rattle.schema_types.specs.CedarViews.{cedar_view};
ghost use Rattle.schema_types.specs.TypeTables.{AreWritten, AreWhole};
ghost use Rattle.schema_types.specs.inner.Table.{size_in, built_of, AreSettled, all_known, is_small_at};
ghost use Rattle.schema_types.specs.inner.Table.{all_small};
ghost use Rattle.schema_types.specs.Outcome.{CommonsRefused, SizesRefused};
ghost use Rattle.schema_types.specs.TableViews.{size_view, type_table};
ghost use Rattle.schema_types.specs.inner.Rounds.{KeepsTable, Steps, Rounds};
ghost use Rattle.schema_types.specs.QualifiedViews.{qualified_view, resolved_common_view};
ghost use Rattle.schema_types.specs.declared.fault.SchemaFault.TheVariants as SchemaFault;

use crate::cedar::CedarType;
use crate::fault::SchemaFault;
use crate::order::order_of;
use crate::qualified::{QualifiedType, ResolvedCommon};
use crate::size::{is_within, size_of};
use crate::write::write;
use crate::{CommonEntry, Size, Table};
use plain::NoMemory;
use std::alloc::Global;
use std::collections::BTreeMap;

/// Returns the expansion of a type, given the size of the expansion. If the size is not within the limits, returns
/// `None` and builds nothing.
#[tactic(auto, using(crate::proofs::Sizes::counted))]
fn write_within(
    alloc: Global,
    ty: &QualifiedType,
    size: Size,
    table: &Table,
) -> Result<Option<CedarType>, NoMemory>
    requires { Some (size_view size) ≡ size_in (type_table table.now) (qualified_view ty.now) }
    ensures { IfOk result (λ o. option_map cedar_view o
        ≡ built_of (type_table table.now) (size_view size) (qualified_view ty.now)) }
{
    if !is_within(size) {
        return Ok(None);
    }
    write(alloc, ty, table)
}

/// Adds an entry for a common type if it is ready: it has no entry, and each common type that it mentions has one.
fn add_if_ready(
    alloc: Global,
    name: &str,
    ty: &QualifiedType,
    table: &mut Table,
) -> Result<(), NoMemory>
    ensures { OnOk result (Steps (name.now, qualified_view ty.now) table.old table.new) }
{
    if table.contains_key(name) {
        return Ok(());
    }
    let Some(size) = size_of(ty, table) else {
        return Ok(());
    };
    let whole = write_within(alloc, ty, size, table)?;
    let key = String::from_str(alloc, name)?;
    table.insert(key, CommonEntry { size, whole })?;
    Ok(())
}

/// Adds an entry for the declaration at an index, if there is such a declaration and it is ready.
fn add_at(
    alloc: Global,
    commons: &[ResolvedCommon],
    place: usize,
    table: &mut Table,
) -> Result<(), NoMemory>
    ensures { OnOk result (KeepsTable (map resolved_common_view commons.now) table.old table.new) }
{
    if place < commons.len() {
        let common = &commons[place];
        add_if_ready(alloc, common.name.as_str(), &common.ty, table)?;
    }
    Ok(())
}

/// Adds, in one pass over these indices, an entry for each declaration that is ready when the pass reaches it.
fn add_in_order(
    alloc: Global,
    commons: &[ResolvedCommon],
    order: &[usize],
    table: &mut Table,
) -> Result<(), NoMemory>
    ensures { OnOk result (KeepsTable (map resolved_common_view commons.now) table.old table.new) }
{
    for place in order {
        add_at(alloc, commons, *place, table)?;
    }
    Ok(())
}

/// Adds, in one pass, an entry for each declaration that is ready when the pass reaches it.
fn round(alloc: Global, commons: &[ResolvedCommon], table: &mut Table) -> Result<(), NoMemory>
    ensures { OnOk result (Rounds (map resolved_common_view commons.now) table.old table.new) }
{
    for common in commons {
        add_if_ready(alloc, common.name.as_str(), &common.ty, table)?;
    }
    Ok(())
}

/// Adds entries in one pass, as [`round`] does, and returns whether any was added.
fn has_grown(alloc: Global, commons: &[ResolvedCommon], table: &mut Table) -> Result<bool, NoMemory>
    ensures rounds { OnOk result (Rounds (map resolved_common_view commons.now) table.old table.new) }
    ensures grown { IfOk result (λ b. b ≡ true → btree_map_len table.old < btree_map_len table.new) }
    ensures settled { IfOk result (λ b. b ≡ false
        → AreSettled (type_table table.new) (map resolved_common_view commons.now)) }
    ensures small { OnOk result (btree_map_len table.new < 2 ^ 63) }
{
    let before = table.len();
    round(alloc, commons, table)?;
    Ok(table.len() != before)
}

/// Returns whether the table has an entry for a name.
fn is_known(name: &str, table: &Table) -> bool
    ensures { result ≡ is_some (type_table table.now name.now) }
{
    match table.get(name) {
        Some(_) => true,
        None => false,
    }
}

/// Returns whether the table has an entry for each declared name.
fn are_all_known(commons: &[ResolvedCommon], table: &Table) -> bool
    ensures { result ≡ all_known (type_table table.now) (map resolved_common_view commons.now) }
{
    for common in commons {
        if !is_known(common.name.as_str(), table) {
            return false;
        }
    }
    true
}

/// Returns the table of the common types: the size of each expansion, and the expansion unless it is too large.
///
/// # Errors
///
/// - `TypeCycle` (23): a common type has no expansion. If all names that the common types mention are declared, some
///   common type refers to itself, directly or through others.
/// - `NoMemory` (1): an allocation failed; possible at any point.
pub fn write_commons(alloc: Global, commons: &[ResolvedCommon]) -> Result<Table, SchemaFault>
    ensures { MatchResult result (λ table. AreWritten (map resolved_common_view commons.now) (type_table table))
        (λ f. f ≢ SchemaFault.NoMemory → CommonsRefused (map resolved_common_view commons.now) f) }
{
    let mut table = BTreeMap::new(alloc);
    let order = order_of(alloc, commons)?;
    add_in_order(alloc, commons, order.as_slice(), &mut table)?;
    while has_grown(alloc, commons, &mut table)? {}
    if !are_all_known(commons, &table) {
        return Err(SchemaFault::TypeCycle);
    }
    Ok(table)
}

/// Returns whether the expansion of a name is not too large; `true` if the name has no entry.
fn is_small(name: &str, table: &Table) -> bool
    ensures { result ≡ is_small_at (type_table table.now name.now) }
{
    match table.get(name) {
        Some(known) => is_within(known.size),
        None => true,
    }
}

/// Returns whether no expansion of a declared name is too large.
fn are_all_small(commons: &[ResolvedCommon], table: &Table) -> bool
    ensures { result ≡ all_small (type_table table.now) (map resolved_common_view commons.now) }
{
    for common in commons {
        if !is_small(common.name.as_str(), table) {
            return false;
        }
    }
    true
}

/// Checks that the expansion of no common type is too large. The error is `TypeTooLarge` (25).
pub fn demand_sizes(commons: &[ResolvedCommon], table: &Table) -> Result<(), SchemaFault>
    requires { AreWritten (map resolved_common_view commons.now) (type_table table.now) }
    ensures { MatchResult result (λ u. AreWhole (map resolved_common_view commons.now) (type_table table.now))
        (λ f. SizesRefused (map resolved_common_view commons.now) f) }
{
    if !are_all_small(commons, table) {
        return Err(SchemaFault::TypeTooLarge);
    }
    Ok(())
}
