//! Parsing of bytes as a schema file, and the resolution of its names.
ghost use Rattle.std.specs.Prelude.{◌≢◌, MatchResult, map};
ghost use Rattle.serde_json.specs.View.{view};
ghost use Rattle.json_words.specs.ReadsAs.{ReadsAs, or_fault};
ghost use Rattle.json_words.specs.Json.{json_of};
ghost use Rattle.schema_reading.specs.inner.StatedViews.{namespace_view};
ghost use Rattle.schema_reading.specs.Qualifying.{together};
ghost use Rattle.schema_reading.specs.ResolvedViews.{resolved_view};
ghost use Rattle.schema_reading.specs.Naming.{IsNamed, NamesRefused, DescribesFile, IsNamingError};
ghost use Rattle.schema_types.specs.declared.fault.SchemaFault.TheVariants as SchemaFault;

use crate::declaring::declare;
use crate::joining::join_all;
use crate::qualifying::{ResolvedFile, qualify_namespaces};
use crate::reading::read_stated;
use crate::records::demand_records;
use crate::stated::StatedNamespace;
use json_words::read_json;
use plain::Items;
use schema_types::SchemaFault;
use serde_json::Value;
use std::alloc::Global;

/// Returns the JSON value of bytes. The errors are `NotJson` (20) and `NoMemory` (1).
fn read_value(alloc: Global, bytes: &[u8]) -> Result<Value, SchemaFault>
    ensures { ReadsAs SchemaFault.NoMemory view result (or_fault SchemaFault.NotJson (json_of bytes.now)) }
{
    match read_json(alloc, bytes)? {
        Some(value) => Ok(value),
        None => Err(SchemaFault::NotJson),
    }
}

/// Returns the namespaces with resolved names.
///
/// # Errors
///
/// In this order:
///
/// - `BadShape` (21): a shape or a context is not a record.
/// - `UnknownName` (22): a name does not resolve.
/// - `NoMemory` (1): an allocation failed; possible at any point.
fn name_all(alloc: Global, stated: &[StatedNamespace]) -> Result<Items<ResolvedFile>, SchemaFault>
    ensures { MatchResult result (λ ps. IsNamed (map namespace_view stated.now) (together (map resolved_view ps)))
        (λ f. f ≢ SchemaFault.NoMemory → NamesRefused (map namespace_view stated.now) f) }
{
    let names = declare(alloc, stated)?;
    demand_records(alloc, &names, stated)?;
    qualify_namespaces(alloc, &names, stated)
}

/// Returns the namespaces that bytes describe, with resolved names. The errors are those of [`read_named`].
fn read_parts(alloc: Global, bytes: &[u8]) -> Result<Items<ResolvedFile>, SchemaFault>
    ensures { MatchResult result (λ ps. DescribesFile bytes.now (together (map resolved_view ps)))
        (λ f. f ≢ SchemaFault.NoMemory → IsNamingError bytes.now f) }
{
    let value = read_value(alloc, bytes)?;
    let stated = read_stated(alloc, &value)?;
    name_all(alloc, stated.as_slice())
}

/// Returns the declarations of the schema file that bytes describe, with resolved names.
///
/// # Errors
///
/// In this order:
///
/// - `NotJson` (20): the bytes are not JSON.
/// - `BadShape` (21): the JSON does not have the form of a schema; or it has this form, but a shape or a context is
///   not a record.
/// - `UnknownName` (22): a name does not resolve.
/// - `NoMemory` (1): an allocation failed; possible at any point.
pub fn read_named(alloc: Global, bytes: &[u8]) -> Result<ResolvedFile, SchemaFault>
    ensures { MatchResult result (λ found. DescribesFile bytes.now (resolved_view found))
        (λ f. f ≢ SchemaFault.NoMemory → IsNamingError bytes.now f) }
{
    let parts = read_parts(alloc, bytes)?;
    Ok(join_all(alloc, parts)?)
}
