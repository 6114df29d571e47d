//! Merges two messages.
ghost use Rattle.std.specs.Prelude.{◌≡◌, IfOk, IfErr, Err};
ghost use Rattle.sync_messages.specs.schema.Views.{schema_view};
ghost use Rattle.stamped_store.specs.Store.{abstract_store};
ghost use Rattle.schema_decisions.specs.answer_lines.Refusals.{no_memory};
ghost use Rattle.program_exchanges.specs.Merges.{IsMerged, IsMergedBack, AreRefused, AreRefusedUnder};
ghost use Rattle.program_exchanges.specs.inner.Merging.{IsJoinWith, IsMergedUnder};

use crate::joining::{Joined, join_message, state_of};
use plain::NoMemory;
use schema_decisions::{Policy, Refusal, parse_schema};
use stamped_store::StampedStore;
use stamped_store::laws::{stores_are_joined, updates_have_one_store};
use std::alloc::Global;
use sync_messages::{Entity, Schema};

/// Returns the join of `store` and the store of `other`, or the error of `other`.
fn joined_with(
    store: StampedStore<Policy, Entity>,
    other: Result<Joined, Refusal>,
) -> Result<StampedStore<Policy, Entity>, Refusal>
    ensures joined { IfOk result (λ t. IsJoinWith (abstract_store store) other (abstract_store t)) }
    ensures refused { IfErr result (λ r. (r ≡ no_memory → ⊥) → other ≡ Err r) }
{
    let mut both = store;
    match other {
        Ok(joined) => match both.merge(joined.store) {
            Ok(()) => Ok(both),
            Err(_) => Err(Refusal::from(NoMemory)),
        },
        Err(refusal) => Err(refusal),
    }
}

/// Returns the state of the join of the updates of the messages `f` and `g`, or the error of the first that is
/// rejected.
fn merge_under(alloc: Global, schema: &Schema, f: &[u8], g: &[u8]) -> Result<Vec<u8>, Refusal>
    ensures merged { IfOk result (λ b. IsMergedUnder (schema_view schema.now) f.now g.now b.items) }
    ensures refused { IfErr result
        (λ r. (r ≡ no_memory → ⊥) → AreRefusedUnder (schema_view schema.now) f.now g.now r) }
{
    updates_have_one_store();
    stores_are_joined();
    let Joined { store, taken: _ } = join_message(alloc, schema, StampedStore::new(alloc), f)?;
    let second = join_message(alloc, schema, StampedStore::new(alloc), g);
    let both = joined_with(store, second)?;
    Ok(state_of(alloc, schema, &both)?)
}

/// Returns the state of the join of the updates of two messages, each a state or a delta, under a schema.
///
/// The order of the messages does not change the bytes, and neither does merging the result with either message again.
/// Parsing the returned bytes gives the updates of the joined store.
///
/// # Errors
///
/// In the order checked:
///
/// - 20 to 25, without a place: the schema is rejected.
/// - 50 to 56, with the place and the code of the inner error: the first message is rejected, or else the second.
/// - 1, at any point: out of memory.
pub fn merge_texts(alloc: Global, schema: &[u8], f: &[u8], g: &[u8]) -> Result<Vec<u8>, Refusal>
    ensures merged { IfOk result
        (λ b. (m : IsMerged schema.now f.now g.now b.items) × IsMergedBack m) }
    ensures refused { IfErr result (λ r. (r ≡ no_memory → ⊥) → AreRefused schema.now f.now g.now r) }
{
    let schema = parse_schema(alloc, schema)?;
    merge_under(alloc, &schema, f, g)
}
