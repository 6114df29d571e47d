//! Theorems about the texts of a store under a schema, and about its messages. The functions are no-ops.
ghost use Rattle.sync_messages.specs.Laws.{PoliciesHaveOneReading, EntitiesHaveOneReading};
ghost use Rattle.sync_messages.specs.Laws.{PoliciesHaveNoOtherName, CanonicalTextsAreRead};
ghost use Rattle.sync_messages.specs.ReadBack.{StatesReadBack, DeltasReadBack};

use crate::as_stated::{entity_texts_are_read_as_stated, messages_are_read_as_stated};
use sync_format::messages_read_back;
use validator::policies_have_one_outcome;

/// Proves that under a schema each text has exactly one outcome. As a policy it gives one policy that passes
/// validation, or one error; as an entity with a given uid, one entity, or one error. No-op.
///
/// No text of a policy is rejected with `OtherName`.
pub fn stored_texts_have_one_reading()
    ensures policies { PoliciesHaveOneReading }
    ensures entities { EntitiesHaveOneReading }
    ensures named { PoliciesHaveNoOtherName }
{
    sync_format::texts_have_one_reading();
    policies_have_one_outcome();
}

/// Proves the round trip of entities. If an entity was parsed from bytes under a well-formed schema, its canonical text
/// is parsed as the same entity, under the same schema and the entity's uid. No-op.
pub fn canonical_texts_are_read()
    ensures { CanonicalTextsAreRead }
{
    validator::canonical_texts_are_read();
}

/// Proves the round trip of states and deltas under a schema. No-op.
///
/// If each update of a store is valid under a schema, the state or the delta that is written of the store describes
/// exactly these updates, in the order of their names: no other list, and no error.
pub fn states_read_back()
    ensures states { StatesReadBack }
    ensures deltas { DeltasReadBack }
{
    messages_read_back();
    entity_texts_are_read_as_stated();
    messages_are_read_as_stated();
}
