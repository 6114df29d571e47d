//! The writing of states and deltas.
ghost use Rattle.std.specs.Prelude.{◌≡◌, [], true, Some, Ok, IfOk, OnOk, codes, map};
ghost use Rattle.serde_json.specs.Data.{array};
ghost use Rattle.serde_json.specs.View.{items_of};
ghost use Rattle.serde_json.specs.Written.{compact_text};
ghost use Rattle.json_words.specs.Json.{json_of};
ghost use Rattle.values.specs.Names.{name_cmp};
ghost use Rattle.stamped_store.specs.Deltas.{delta, is_unseen as is_news_where};
ghost use Rattle.stamped_store.specs.EntryOrder.{plain_entry, body_bytes};
ghost use Rattle.stamped_store.specs.Store.{abstract_store, updates};
ghost use Rattle.stamped_store.specs.JoinMaps.{value_at};
ghost use Rattle.sync_format.specs.Summaries.{ascend};
ghost use Rattle.entity_uids.specs.Tokens.{AppendsValue, AppendsMember, AppendsAll};
ghost use Rattle.sync_format.specs.Messages.{body_json, entry_json, message_json, state_json, state_text};
ghost use Rattle.sync_format.specs.Messages.{delta_json, delta_text, updates_stated};
ghost use Rattle.sync_format.specs.Updates.{AreInRange};
ghost use Rattle.sync_format.specs.inner.Walking.{IsFrom, IsWalked};
ghost use Rattle.sync_format.specs.inner.Writing.{EndsMessage, missing_json_by};

use crate::laws::messages_read_back;
use crate::members::{Lent, write_number, write_text};
use crate::summary::Summary;
use json::Writer;
use plain::NoMemory;
use stamped_store::{Entry, ReadText, Stamp, StampedStore};
use std::alloc::Global;
use std::cmp::Ordering;
use std::collections::btree_map::Iter;
use values::Name;

/// Writes the member `body` of an entry: a string, or null for a tombstone.
fn write_body<P>(out: &mut Writer, body: &Option<ReadText<P>>) -> Result<(), NoMemory>
    ensures { OnOk result (AppendsMember out.old out.new (codes "body") (body_json (body_bytes body.now))) }
{
    match body {
        Some(read) => write_text(out, "body", read.text.as_str()),
        None => {
            out.key("body")?;
            out.null()
        }
    }
}

/// Writes an entry and its name as one object.
pub(crate) fn write_entry<N: Lent, P>(
    out: &mut Writer,
    name: &N,
    entry: &Entry<P>,
) -> Result<(), NoMemory>
    ensures { OnOk result (AppendsValue out.old out.new (entry_json (N.named name.now, plain_entry entry.now))) }
{
    out.begin_object()?;
    write_body(out, &entry.body)?;
    write_number(out, "count", entry.stamp.count)?;
    name.write(out)?;
    write_text(out, "site", entry.stamp.site.as_str())?;
    out.end_object()
}

/// Returns the part of `known` from `name` on, and the stamp that `known` has for `name`, if it has one. The names of
/// `known` ascend.
fn from_name<'a, N: Lent>(
    known: &'a [(Name, Stamp)],
    name: &N,
) -> (&'a [(Name, Stamp)], Option<Stamp>)
    requires { ascend known.now ≡ true }
    ensures left { IsFrom (N.named name.now) known.now result.0.now }
    ensures stamp { result.1 ≡ value_at name_cmp known.now (N.named name.now) }
{
    let mut left = known;
    while let Some((first, others)) = left.split_first() {
        match name.compare(&first.0) {
            Ordering::Less => left = others,
            Ordering::Equal => return (left, Some(first.1)),
            Ordering::Greater => return (left, None),
        }
    }
    (left, None)
}

/// Returns whether a summary lacks an entry's name or has it with a smaller stamp; `known` is the stamp of the name in
/// the summary.
fn is_unseen<P>(known: Option<Stamp>, entry: &Entry<P>) -> bool
    ensures { result ≡ is_news_where known (Some (plain_entry entry.now)) }
{
    match known {
        None => true,
        Some(held) => held.cmp(&entry.stamp).is_lt(),
    }
}

/// Writes an entry if a summary lacks its name or has it with a smaller stamp; `known` is the stamp of the name in the
/// summary.
fn push_missing<N: Lent, P>(
    out: &mut Writer,
    known: Option<Stamp>,
    name: &N,
    entry: &Entry<P>,
) -> Result<(), NoMemory>
    ensures { OnOk result
        (AppendsAll out.old out.new (missing_json_by known (N.named name.now, plain_entry entry.now))) }
{
    if !is_unseen(known, entry) {
        return Ok(());
    }
    write_entry(out, name, entry)
}

/// Writes the entries whose names `known` lacks or has with a smaller stamp. The names of `entries` and those of
/// `known` ascend. Returns the part of `known` from the name of the last entry on, or `known` if there are no entries.
fn push_all<'a, N: Lent + Drop, P: Drop>(
    out: &mut Writer,
    entries: Iter<'_, N, Entry<P>>,
    known: &'a [(Name, Stamp)],
) -> Result<&'a [(Name, Stamp)], NoMemory>
    requires { ascend known.now ≡ true }
    ensures ascending { IfOk result (λ left. ascend left.now ≡ true) }
    ensures walked { IfOk result
        (λ left. IsWalked N.named known.now left.now out.old out.new entries.entry entries.entry []) }
{
    let mut left = known;
    for (name, entry) in entries {
        let (from, stamp) = from_name(left, name);
        left = from;
        push_missing(out, stamp, name, entry)?;
    }
    Ok(left)
}

/// Writes an array, in ascending order of names, of a store's entries whose names `known` lacks or has with a smaller
/// stamp. The names of `known` ascend. Takes one walk over the names of the store and of `known`.
fn write_entries<P: Drop, E: Drop>(
    out: &mut Writer,
    store: &StampedStore<P, E>,
    known: &[(Name, Stamp)],
) -> Result<(), NoMemory>
    requires { ascend known.now ≡ true }
    ensures { OnOk result (AppendsValue out.old out.new
        (array (items_of (map entry_json (updates (delta (abstract_store store.now) known.now)))))) }
{
    out.begin_array()?;
    let left = push_all(out, store.policies(), known)?;
    push_all(out, store.entities(), left)?;
    out.end_array()
}

/// Writes the members of a message behind its entries, and closes the object.
pub(crate) fn end_message(out: &mut Writer, kind: &str, label: &str) -> Result<(), NoMemory>
    ensures { OnOk result (EndsMessage kind.now label.now out.old out.new) }
{
    write_text(out, "kind", kind)?;
    write_text(out, "schema", label)?;
    write_number(out, "version", 2)?;
    out.end_object()
}

/// Writes the state or delta as an object, with the entries of the store whose names `known` lacks or has with a
/// smaller stamp. The names of `known` ascend.
fn write_whole<P: Drop, E: Drop>(
    out: &mut Writer,
    kind: &str,
    label: &str,
    store: &StampedStore<P, E>,
    known: &[(Name, Stamp)],
) -> Result<(), NoMemory>
    requires { ascend known.now ≡ true }
    ensures { OnOk result (AppendsValue out.old out.new
        (message_json kind.now label.now (updates (delta (abstract_store store.now) known.now)))) }
{
    out.begin_object()?;
    out.key("entries")?;
    write_entries(out, store, known)?;
    end_message(out, kind, label)
}

/// Returns the state or delta as bytes: the entries of the store whose names `known` lacks or has with a smaller stamp.
/// The names of `known` ascend.
fn write_message<P: Drop, E: Drop>(
    alloc: Global,
    kind: &str,
    label: &str,
    store: &StampedStore<P, E>,
    known: &[(Name, Stamp)],
) -> Result<Vec<u8>, NoMemory>
    requires { ascend known.now ≡ true }
    ensures text { IfOk result (λ b. b.items ≡ compact_text
        (message_json kind.now label.now (updates (delta (abstract_store store.now) known.now)))) }
    ensures json { IfOk result (λ b. json_of b.items
        ≡ Some (message_json kind.now label.now (updates (delta (abstract_store store.now) known.now)))) }
{
    let mut out = Writer::new(Vec::new(alloc));
    write_whole(&mut out, kind, label, store, known)?;
    Ok(out.into_inner())
}

/// Returns a whole store, as a state of the schema with this label: compact, keys and names ascending.
///
/// If each name and stamp is in its range, the message describes the updates that it was written from. Allocates only
/// the returned bytes.
///
/// # Errors
///
/// - `NoMemory`: an allocation failed.
pub fn write_state<P: Drop, E: Drop>(
    alloc: Global,
    label: &str,
    store: &StampedStore<P, E>,
) -> Result<Vec<u8>, NoMemory>
    ensures text { IfOk result (λ b. b.items ≡ state_text label.now (abstract_store store.now)) }
    ensures json { IfOk result (λ b. json_of b.items ≡ Some (state_json label.now (abstract_store store.now))) }
    ensures reads_back { IfOk result (λ b. AreInRange (updates (abstract_store store.now))
        → updates_stated label.now b.items ≡ Ok (updates (abstract_store store.now))) }
{
    messages_read_back();
    write_message(alloc, "state", label, store, &[])
}

/// Returns a delta of the schema with this label: the entries whose names `since` lacks or has with a smaller stamp.
///
/// The text is compact, with keys and names ascending. If the name and stamp of each entry are in their ranges, the
/// message describes these entries. Takes one walk over the names of the store and of `since`. Allocates only the
/// returned bytes.
///
/// # Errors
///
/// - `NoMemory`: an allocation failed.
pub fn write_delta<P: Drop, E: Drop>(
    alloc: Global,
    label: &str,
    store: &StampedStore<P, E>,
    since: &Summary,
) -> Result<Vec<u8>, NoMemory>
    ensures text { IfOk result (λ b. b.items ≡ delta_text label.now (delta (abstract_store store.now) since.now)) }
    ensures json { IfOk result
        (λ b. json_of b.items ≡ Some (delta_json label.now (delta (abstract_store store.now) since.now))) }
    ensures reads_back { IfOk result (λ b. AreInRange (updates (delta (abstract_store store.now) since.now))
        → updates_stated label.now b.items ≡ Ok (updates (delta (abstract_store store.now) since.now))) }
{
    messages_read_back();
    write_message(alloc, "delta", label, store, since.stamps())
}
