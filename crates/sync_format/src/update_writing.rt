//! The writing of a list of updates, as a delta.
ghost use Rattle.std.specs.Prelude.{◌≡◌, Some, Ok, IfOk, OnOk, map};
ghost use Rattle.serde_json.specs.Data.{array};
ghost use Rattle.serde_json.specs.View.{items_of};
ghost use Rattle.json_words.specs.Json.{json_of};
ghost use Rattle.entity_uids.specs.Tokens.{AppendsValue, AppendsAll};
ghost use Rattle.sync_format.specs.Messages.{entry_json, updates_json, updates_stated, updates_text};
ghost use Rattle.sync_format.specs.Updates.{AreInRange, plain_update, plain_updates};

use crate::Update;
use crate::laws::messages_read_back;
use crate::writing::{end_message, write_entry};
use json::Writer;
use plain::NoMemory;
use std::alloc::Global;

/// Writes an update as one object.
fn write_update<P: Drop, E: Drop>(out: &mut Writer, update: &Update<P, E>) -> Result<(), NoMemory>
    ensures { OnOk result (AppendsValue out.old out.new (entry_json (plain_update update.now))) }
{
    match update {
        Update::Policy { id, entry } => write_entry(out, id, entry),
        Update::Entity { uid, entry } => write_entry(out, uid, entry),
    }
}

/// Writes updates, in their order.
fn write_each<P: Drop, E: Drop>(out: &mut Writer, updates: &[Update<P, E>]) -> Result<(), NoMemory>
    ensures { OnOk result (AppendsAll out.old out.new (map entry_json (plain_updates updates.now))) }
{
    for update in updates {
        write_update(out, update)?;
    }
    Ok(())
}

/// Writes an array of updates, in their order.
fn write_array<P: Drop, E: Drop>(out: &mut Writer, updates: &[Update<P, E>]) -> Result<(), NoMemory>
    ensures { OnOk result (AppendsValue out.old out.new
        (array (items_of (map entry_json (plain_updates updates.now))))) }
{
    out.begin_array()?;
    write_each(out, updates)?;
    out.end_array()
}

/// Writes updates, in their order, as a delta.
fn write_whole<P: Drop, E: Drop>(
    out: &mut Writer,
    label: &str,
    updates: &[Update<P, E>],
) -> Result<(), NoMemory>
    ensures { OnOk result (AppendsValue out.old out.new (updates_json label.now (plain_updates updates.now))) }
{
    out.begin_object()?;
    out.key("entries")?;
    write_array(out, updates)?;
    end_message(out, "delta", label)
}

/// Returns a delta of the schema with this label, compact, keys ascending: the updates, in their order and with
/// repeats.
///
/// If the name and stamp of each update are in their ranges, the message describes these updates. Allocates only the
/// returned bytes.
///
/// # Errors
///
/// - `NoMemory`: an allocation failed.
pub fn write_updates<P: Drop, E: Drop>(
    alloc: Global,
    label: &str,
    updates: &[Update<P, E>],
) -> Result<Vec<u8>, NoMemory>
    ensures text { IfOk result (λ b. b.items ≡ updates_text label.now (plain_updates updates.now)) }
    ensures json { IfOk result (λ b. json_of b.items ≡ Some (updates_json label.now (plain_updates updates.now))) }
    ensures reads_back { IfOk result (λ b. AreInRange (plain_updates updates.now)
        → updates_stated label.now b.items ≡ Ok (plain_updates updates.now)) }
{
    messages_read_back();
    let mut out = Writer::new(Vec::new(alloc));
    write_whole(&mut out, label, updates)?;
    Ok(out.into_inner())
}
