//! The writing of a summary.
ghost use Rattle.std.specs.Prelude.{◌≡◌, IfOk, OnOk, Ok, map};
ghost use Rattle.serde_json.specs.Data.{array};
ghost use Rattle.serde_json.specs.View.{items_of};
ghost use Rattle.stamped_store.specs.Deltas.{summary_of};
ghost use Rattle.stamped_store.specs.Store.{abstract_store};
ghost use Rattle.sync_format.specs.Summaries.{stamp_json, summary_json, summary_text, summary_stated, AreStamped};
ghost use Rattle.entity_uids.specs.Tokens.{AppendsValue, AppendsAll};
ghost use Rattle.sync_format.specs.inner.SummaryWriting.{stamps_json};

use crate::members::{Lent, write_number, write_text};
use crate::summary_laws::summaries_read_back;
use json::Writer;
use plain::NoMemory;
use stamped_store::{Entry, Stamp, StampedStore};
use std::alloc::Global;
use std::collections::btree_map::Iter;

/// Writes a name with its stamp.
fn write_stamp<N: Lent>(out: &mut Writer, name: &N, stamp: Stamp) -> Result<(), NoMemory>
    ensures { OnOk result (AppendsValue out.old out.new (stamp_json (N.named name.now, stamp))) }
{
    out.begin_object()?;
    write_number(out, "count", stamp.count)?;
    name.write(out)?;
    write_text(out, "site", stamp.site.as_str())?;
    out.end_object()
}

/// Writes the names and stamps of these entries, in their order.
fn write_each<N: Lent + Drop, P: Drop>(
    out: &mut Writer,
    entries: Iter<'_, N, Entry<P>>,
) -> Result<(), NoMemory>
    ensures { OnOk result (AppendsAll out.old out.new (stamps_json N.named entries.entry)) }
{
    for (name, entry) in entries {
        write_stamp(out, name, entry.stamp)?;
    }
    Ok(())
}

/// Writes the names and stamps of a store as an array, in the order of the names: policies, then entities.
fn write_stamps<P: Drop, E: Drop>(
    out: &mut Writer,
    store: &StampedStore<P, E>,
) -> Result<(), NoMemory>
    ensures { OnOk result (AppendsValue out.old out.new
        (array (items_of (map stamp_json (summary_of (abstract_store store.now)))))) }
{
    out.begin_array()?;
    write_each(out, store.policies())?;
    write_each(out, store.entities())?;
    out.end_array()
}

/// Writes the summary of a store as an object.
fn write_whole<P: Drop, E: Drop>(
    out: &mut Writer,
    label: &str,
    store: &StampedStore<P, E>,
) -> Result<(), NoMemory>
    ensures { OnOk result (AppendsValue out.old out.new
        (summary_json label.now (summary_of (abstract_store store.now)))) }
{
    out.begin_object()?;
    write_text(out, "kind", "summary")?;
    write_text(out, "schema", label)?;
    out.key("stamps")?;
    write_stamps(out, store)?;
    write_number(out, "version", 2)?;
    out.end_object()
}

/// Returns the summary of a store, as a message of the schema with this label: compact, keys and names ascending.
///
/// If each name and stamp is in its range, the message is parsed as the summary that it was written from. Allocates
/// only the returned bytes.
///
/// # Errors
///
/// - `NoMemory`: an allocation failed.
pub fn write_summary<P: Drop, E: Drop>(
    alloc: Global,
    label: &str,
    store: &StampedStore<P, E>,
) -> Result<Vec<u8>, NoMemory>
    ensures text { IfOk result (λ b. b.items ≡ summary_text label.now (summary_of (abstract_store store.now))) }
    ensures reads_back { IfOk result (λ b. AreStamped (summary_of (abstract_store store.now))
        → summary_stated label.now b.items ≡ Ok (summary_of (abstract_store store.now))) }
{
    summaries_read_back();
    let mut out = Writer::new(Vec::new(alloc));
    write_whole(&mut out, label, store)?;
    Ok(out.into_inner())
}
