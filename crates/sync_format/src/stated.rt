//! The parsing of a message's entries from JSON, before their ranges and texts are checked.
ghost use Rattle.std.specs.Prelude.{◌≡◌, ◌||◌, map};
ghost use Rattle.serde_json.specs.View.{view, items_view};
ghost use Rattle.json_words.specs.ReadsAs.{ReadsAs};
ghost use Rattle.sync_format.specs.declared.fault.MessageFault.TheVariants as MessageFault;
ghost use Rattle.sync_format.specs.Messages.{body_in, entry_in, entries_of, entries_in, is_kind as names_kind};
ghost use Rattle.sync_format.specs.Messages.{updates_in, updates_stated};
ghost use Rattle.sync_format.specs.inner.Reading.{stated_update};

use crate::fault::MessageFault;
use crate::summary_reading::{read_stamped, read_version};
use crate::version::MessageVersion;
use json_words::{Scratch, only_keys, read_json_by, text_at};
use plain::{Text, pair_with};
use serde_json::Value;
use stamped_store::Stamp;
use std::alloc::Global;
use values::Name;

/// An entry as a message describes it: a name with a stamp, and a body that is a text, or `None` for a tombstone.
#[derive(Drop)]
pub struct ReadEntry {
    pub(crate) stamped: (Name, Stamp),
    pub(crate) body: Option<Text>,
}

/// Returns the body of an entry: a string, or `None` for null; `BadShape` for other JSON.
#[tactic(auto, unfolding(crate::specs::Messages::body_in, crate::specs::Messages::text_in))]
fn read_body(alloc: Global, value: &Value) -> Result<Option<Text>, MessageFault>
    ensures { ReadsAs MessageFault.NoMemory (λ b. b) result (body_in (view value.now)) }
{
    if value.is_null() {
        return Ok(None);
    }
    let Some(text) = value.as_str() else {
        return Err(MessageFault::BadShape);
    };
    Ok(Some(Text::from_str(alloc, text)?))
}

/// Returns the entry that an object describes; `BadShape` if it describes none.
#[tactic(auto, unfolding(crate::specs::Messages::entry_in, crate::specs::Messages::entry_by))]
fn read_entry(
    alloc: Global,
    version: MessageVersion,
    value: &Value,
) -> Result<ReadEntry, MessageFault>
    ensures { ReadsAs MessageFault.NoMemory stated_update result (entry_in version (view value.now)) }
{
    if !only_keys(value, &["body", "count", "name", "site"]) {
        return Err(MessageFault::BadShape);
    }
    let Some(found) = value.get("body") else {
        return Err(MessageFault::BadShape);
    };
    let body = read_body(alloc, found)?;
    let (body, stamped) = pair_with(body, read_stamped(alloc, version, value))?;
    Ok(ReadEntry { stamped, body })
}

/// Returns the entries that the values describe, or the first error.
fn read_each(
    alloc: Global,
    version: MessageVersion,
    values: &[Value],
) -> Result<Vec<ReadEntry>, MessageFault>
    ensures { ReadsAs MessageFault.NoMemory (λ es. map stated_update es.items) result
        (entries_of (entry_in version) (items_view values.now)) }
{
    let mut entries = Vec::with_capacity(alloc, values.len())?;
    for value in values {
        let entry = read_entry(alloc, version, value)?;
        entries.push(entry)?;
    }
    Ok(entries)
}

/// Returns the entries at the key `entries` of a message, or the first error.
#[tactic(auto, unfolding(crate::specs::Messages::entries_in, crate::specs::Messages::entries_by))]
fn read_entries(
    alloc: Global,
    version: MessageVersion,
    value: &Value,
) -> Result<Vec<ReadEntry>, MessageFault>
    ensures { ReadsAs MessageFault.NoMemory (λ es. map stated_update es.items) result
        (entries_in version (view value.now)) }
{
    let Some(found) = value.get("entries") else {
        return Err(MessageFault::BadShape);
    };
    let Some(list) = found.as_array() else {
        return Err(MessageFault::BadShape);
    };
    read_each(alloc, version, list)
}

/// Returns whether a message of this kind has entries: whether it is a state or a delta.
fn is_kind(kind: &str) -> bool
    ensures { result ≡ names_kind kind.now }
{
    kind == "state" || kind == "delta"
}

/// Returns the entries of the message that a JSON value describes, or the first error.
#[tactic(auto, unfolding(crate::specs::Messages::updates_in, crate::specs::Messages::updates_by))]
fn read_value(alloc: Global, label: &str, value: &Value) -> Result<Vec<ReadEntry>, MessageFault>
    ensures { ReadsAs MessageFault.NoMemory (λ es. map stated_update es.items) result
        (updates_in label.now (view value.now)) }
{
    let version = read_version(value)?;
    if !only_keys(value, &["entries", "kind", "schema", "version"]) {
        return Err(MessageFault::BadShape);
    }
    let Some(kind) = text_at(value, "kind") else {
        return Err(MessageFault::BadShape);
    };
    if !is_kind(kind) {
        return Err(MessageFault::BadShape);
    }
    let Some(schema) = text_at(value, "schema") else {
        return Err(MessageFault::BadShape);
    };
    let entries = read_entries(alloc, version, value)?;
    if schema != label {
        return Err(MessageFault::OtherSchema);
    }
    Ok(entries)
}

/// Returns the entries that `bytes` describe for the schema with this label, in their order, or the first error of
/// JSON, version, shape or label. The JSON value is dropped before any text is parsed.
#[tactic(auto, unfolding(crate::specs::Messages::updates_stated))]
pub(crate) fn read_stated(
    alloc: Global,
    scratch: &mut Scratch,
    label: &str,
    bytes: &[u8],
) -> Result<Vec<ReadEntry>, MessageFault>
    ensures { ReadsAs MessageFault.NoMemory (λ es. map stated_update es.items) result
        (updates_stated label.now bytes.now) }
{
    match read_json_by(scratch, alloc, bytes)? {
        Some(value) => read_value(alloc, label, &value),
        None => Err(MessageFault::NotJson),
    }
}
