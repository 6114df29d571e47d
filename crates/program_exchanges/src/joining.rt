//! Joins the updates of a message into a store.
ghost use Rattle.std.specs.Prelude.{◌≡◌, ◌++◌, ◌∷◌, [], length, IfOk, IfErr, OnOk};
ghost use Rattle.sync_messages.specs.schema.Views.{schema_view};
ghost use Rattle.stamped_store.specs.Store.{abstract_store, store_of, updates};
ghost use Rattle.schema_decisions.specs.answer_lines.Refusals.{no_memory};
ghost use Rattle.sync_messages.specs.sync_format.Messages.{state_text};
ghost use Rattle.sync_messages.specs.sync_format.Updates.{plain_update, plain_updates};
ghost use Rattle.program_exchanges.specs.Messages.{IsMessageRefused, IsSendable, IsReadBack, Joins};
ghost use Rattle.program_exchanges.specs.Messages.{message_refusal};

use plain::NoMemory;
use schema_decisions::{Place, Policy, Refusal};
use stamped_store::StampedStore;
use stamped_store::laws::updates_have_one_store;
use std::alloc::Global;
use sync_messages::{
    Entity, MessageFault, Schema, SchemaTexts, Update, read_message, valid_messages_are_read,
    write_state,
};

/// Returns the report of a message's error: its code (50 to 56, or 1), its place, and the code of the inner error.
pub fn message_refusal(fault: MessageFault) -> Refusal
    ensures { result ≡ message_refusal fault }
{
    Refusal {
        code: fault.code(),
        place: fault.place().map(Place::Index),
        within: fault.within(),
    }
}

/// Joins one update into a store.
fn take_one(
    store: &mut StampedStore<Policy, Entity>,
    update: Update<Policy, Entity>,
) -> Result<(), NoMemory>
    ensures { OnOk result (abstract_store store.new
        ≡ store_of (updates (abstract_store store.old) ++ plain_update update ∷ [])) }
{
    match update {
        Update::Policy { id, entry } => match store.take_policy(id.into_string(), entry) {
            Ok(()) => Ok(()),
            Err(_) => Err(NoMemory),
        },
        Update::Entity { uid, entry } => match store.take_entity(uid, entry) {
            Ok(()) => Ok(()),
            Err(_) => Err(NoMemory),
        },
    }
}

/// Joins updates into a store in order, and counts them.
fn take_all(
    store: &mut StampedStore<Policy, Entity>,
    received_updates: Vec<Update<Policy, Entity>>,
) -> Result<usize, NoMemory>
    ensures store { OnOk result (abstract_store store.new
        ≡ store_of (updates (abstract_store store.old) ++ plain_updates received_updates.items)) }
    ensures count { IfOk result (λ n. n ≡ length received_updates.items) }
{
    updates_have_one_store();
    let mut taken = 0;
    for update in received_updates {
        take_one(store, update)?;
        taken += 1;
    }
    Ok(taken)
}

/// A store into which a message was joined, and the number of the message's updates.
#[derive(Drop)]
pub struct Joined {
    /// The store of the updates of both, the earlier store and the message.
    pub store: StampedStore<Policy, Entity>,
    /// The number of updates of the message, including those that lose to a greater entry.
    pub taken: usize,
}

/// Joins the updates of a state or a delta into a store, in order: at each name the greater entry wins. If each update
/// of `store` has its name, count and site in their ranges and is valid under the schema, the same holds of each update
/// of the joined store.
///
/// # Errors
///
/// After any error the store is dropped, so no store has only some of the updates.
///
/// - The message is rejected whole, with its first error (50 to 56, with its place and the code of the inner error).
/// - Out of memory (1), at any point.
pub fn join_message(
    alloc: Global,
    schema: &Schema,
    store: StampedStore<Policy, Entity>,
    bytes: &[u8],
) -> Result<Joined, Refusal>
    ensures joined { IfOk result (λ j. Joins (schema_view schema.now) (abstract_store store) bytes.now
        (abstract_store j.store) j.taken) }
    ensures sendable { IfOk result (λ j. IsSendable (schema_view schema.now) (abstract_store store)
        → IsSendable (schema_view schema.now) (abstract_store j.store)) }
    ensures refused { IfErr result
        (λ r. (r ≡ no_memory → ⊥) → IsMessageRefused (schema_view schema.now) bytes.now r) }
{
    valid_messages_are_read::<Policy, Entity, SchemaTexts<'static>>();
    let mut store = store;
    let updates = match read_message(alloc, schema, bytes) {
        Ok(updates) => updates,
        Err(fault) => return Err(message_refusal(fault)),
    };
    let taken = take_all(&mut store, updates)?;
    Ok(Joined { store, taken })
}

/// Returns a store as a state of the schema. If each update of the store has its name, count and site in their ranges
/// and is valid under the schema, the state is parsed again as exactly these updates.
///
/// # Errors
///
/// - `NoMemory`: an allocation failed.
pub fn state_of(
    alloc: Global,
    schema: &Schema,
    store: &StampedStore<Policy, Entity>,
) -> Result<Vec<u8>, NoMemory>
    ensures text { IfOk result (λ b. b.items ≡ state_text (schema_view schema.now).label (abstract_store store.now)) }
    ensures reads_back { IfOk result (λ b. IsSendable (schema_view schema.now) (abstract_store store.now)
        → IsReadBack (schema_view schema.now) (abstract_store store.now) b.items) }
{
    valid_messages_are_read::<Policy, Entity, SchemaTexts<'static>>();
    write_state(alloc, schema, store)
}
