//! States, deltas and summaries under a schema, parsed and written.
ghost use Rattle.std.specs.Prelude.{◌≡◌, Some, Ok, IfOk, IfErr, MatchResult};
ghost use Rattle.json_words.specs.Json.{json_of};
ghost use Rattle.json_words.specs.ReadsAs.{ReadsAs};
ghost use Rattle.plain.specs.AllocationErrors.{OrNoMemory};
ghost use Rattle.stamped_store.specs.Deltas.{delta, summary_of};
ghost use Rattle.stamped_store.specs.Store.{abstract_store, updates};
ghost use Rattle.sync_format.specs.declared.fault.MessageFault.TheVariants as MessageFault;
ghost use Rattle.sync_format.specs.Messages.{state_json, state_text, delta_json, delta_text, updates_stated};
ghost use Rattle.sync_format.specs.Summaries.{AreStamped, summary_stated, summary_text};
ghost use Rattle.sync_format.specs.Messages.{updates_json, updates_text};
ghost use Rattle.sync_format.specs.Updates.{AreInRange, plain_updates};
ghost use Rattle.validator.specs.schema.Views.{schema_view};
ghost use Rattle.sync_messages.specs.Messages.{IsMessageOf, IsMessageFaultOf};
ghost use Rattle.sync_messages.specs.ReadBack.{HasValidUpdates, DescribesStore};
ghost use Rattle.sync_messages.specs.StatedMessages.{DescribesMessage, RefusesMessage};
ghost use Rattle.sync_messages.specs.StatedSummaries.{DescribesSummary, RefusesSummary};

use crate::as_stated::{
    entity_texts_are_read_as_stated, messages_are_read_as_stated, summaries_are_read_as_stated,
};
use crate::texts::SchemaTexts;
use plain::NoMemory;
use stamped_store::StampedStore;
use std::alloc::Global;
use sync_format::{MessageFault, Policy, Summary, Update, read_message_by};
use validator::{Entity, Schema};

/// Parses a state or a delta under a schema.
///
/// Returns the updates in the order of the message, each text with its parsed form. A text that is not valid under the
/// schema is an error.
///
/// # Errors
///
/// - 50 to 56: the first error of the message, in the order of [`read_message_by`].
/// - `NoMemory` (1): an allocation failed, or a count of references would overflow; possible at any point.
pub fn read_message(
    alloc: Global,
    schema: &Schema,
    bytes: &[u8],
) -> Result<Vec<Update<Policy, Entity>>, MessageFault>
    ensures read { IfOk result (λ us. IsMessageOf (schema_view schema.now) bytes.now us.items) }
    ensures refused { IfErr result
        (OrNoMemory MessageFault.NoMemory (IsMessageFaultOf (schema_view schema.now) bytes.now)) }
    ensures stated { MatchResult result (λ us. DescribesMessage (schema_view schema.now) bytes.now us.items)
        (OrNoMemory MessageFault.NoMemory (RefusesMessage (schema_view schema.now) bytes.now)) }
{
    messages_are_read_as_stated();
    let texts = SchemaTexts::under(schema);
    match read_message_by(alloc, schema.label(), &texts, bytes) {
        Ok(updates) => Ok(updates),
        Err(fault) => Err(fault),
    }
}

/// Parses a summary under a schema.
///
/// In version 1 a site is a number, which becomes the name of five digits: 7 becomes `00007`.
///
/// # Errors
///
/// - 50 to 55: the first error of the summary, in the order of [`sync_format::read_summary`].
/// - `NoMemory` (1): an allocation failed; possible at any point.
pub fn read_summary(alloc: Global, schema: &Schema, bytes: &[u8]) -> Result<Summary, MessageFault>
    ensures read { ReadsAs MessageFault.NoMemory (λ m. m) result
        (summary_stated (schema_view schema.now).label bytes.now) }
    ensures stated { MatchResult result (DescribesSummary (schema_view schema.now).label bytes.now)
        (OrNoMemory MessageFault.NoMemory (RefusesSummary (schema_view schema.now).label bytes.now)) }
{
    summaries_are_read_as_stated();
    sync_format::read_summary(alloc, schema.label(), bytes)
}

/// Returns a whole store, as a state of the schema: compact, keys and names ascending.
///
/// If each update of the store is valid under the schema, the state describes exactly these updates. Allocates only the
/// returned bytes.
///
/// # Errors
///
/// - `NoMemory`: an allocation failed.
pub fn write_state(
    alloc: Global,
    schema: &Schema,
    store: &StampedStore<Policy, Entity>,
) -> Result<Vec<u8>, NoMemory>
    ensures text { IfOk result (λ b. b.items ≡ state_text (schema_view schema.now).label (abstract_store store.now)) }
    ensures json { IfOk result
        (λ b. json_of b.items ≡ Some (state_json (schema_view schema.now).label (abstract_store store.now))) }
    ensures reads_back { IfOk result (λ b. AreInRange (updates (abstract_store store.now))
        → updates_stated (schema_view schema.now).label b.items ≡ Ok (updates (abstract_store store.now))) }
    ensures described { IfOk result (λ b. HasValidUpdates (schema_view schema.now) (abstract_store store.now)
        → DescribesStore (schema_view schema.now) b.items (abstract_store store.now)) }
{
    entity_texts_are_read_as_stated();
    messages_are_read_as_stated();
    sync_format::write_state(alloc, schema.label(), store)
}

/// Returns a delta of the schema: the entries whose names `since` lacks or has with a smaller stamp.
///
/// The text is compact, with keys and names ascending. If the name and stamp of each entry are in their ranges, the
/// message describes these entries. Takes one walk over the names of the store and of `since`. Allocates only the
/// returned bytes.
///
/// # Errors
///
/// - `NoMemory`: an allocation failed.
pub fn write_delta(
    alloc: Global,
    schema: &Schema,
    store: &StampedStore<Policy, Entity>,
    since: &Summary,
) -> Result<Vec<u8>, NoMemory>
    ensures text { IfOk result
        (λ b. b.items ≡ delta_text (schema_view schema.now).label (delta (abstract_store store.now) since.now)) }
    ensures json { IfOk result (λ b. json_of b.items
        ≡ Some (delta_json (schema_view schema.now).label (delta (abstract_store store.now) since.now))) }
    ensures reads_back { IfOk result (λ b. AreInRange (updates (delta (abstract_store store.now) since.now))
        → updates_stated (schema_view schema.now).label b.items
        ≡ Ok (updates (delta (abstract_store store.now) since.now))) }
{
    sync_format::write_delta(alloc, schema.label(), store, since)
}

/// Returns a delta of the schema, compact, keys ascending: the updates, in their order and with repeats.
///
/// If the name and stamp of each update are in their ranges, the message describes these updates. Allocates only the
/// returned bytes.
///
/// # Errors
///
/// - `NoMemory`: an allocation failed.
pub fn write_updates<P: Drop, E: Drop>(
    alloc: Global,
    schema: &Schema,
    updates: &[Update<P, E>],
) -> Result<Vec<u8>, NoMemory>
    ensures text { IfOk result
        (λ b. b.items ≡ updates_text (schema_view schema.now).label (plain_updates updates.now)) }
    ensures json { IfOk result
        (λ b. json_of b.items ≡ Some (updates_json (schema_view schema.now).label (plain_updates updates.now))) }
    ensures reads_back { IfOk result (λ b. AreInRange (plain_updates updates.now)
        → updates_stated (schema_view schema.now).label b.items ≡ Ok (plain_updates updates.now)) }
{
    sync_format::write_updates(alloc, schema.label(), updates)
}

/// Returns the summary of a store, as a message of the schema: compact, keys and names ascending.
///
/// If each name and stamp is in its range, the message is parsed as the summary that it was written from. Allocates
/// only the returned bytes.
///
/// # Errors
///
/// - `NoMemory`: an allocation failed.
pub fn write_summary(
    alloc: Global,
    schema: &Schema,
    store: &StampedStore<Policy, Entity>,
) -> Result<Vec<u8>, NoMemory>
    ensures text { IfOk result
        (λ b. b.items ≡ summary_text (schema_view schema.now).label (summary_of (abstract_store store.now))) }
    ensures reads_back { IfOk result (λ b. AreStamped (summary_of (abstract_store store.now))
        → summary_stated (schema_view schema.now).label b.items ≡ Ok (summary_of (abstract_store store.now))) }
{
    sync_format::write_summary(alloc, schema.label(), store)
}
