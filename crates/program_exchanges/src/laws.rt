//! Theorems about merged states. The functions are no-ops.
ghost use Rattle.std.specs.Prelude.{ℕ, List};
ghost use Rattle.schema_decisions.specs.schema_types.declared.fault.SchemaFault.{SchemaFault};
ghost use Rattle.sync_messages.specs.schema.SchemaEntries.{SchemaEntries as SchemaKept};
ghost use Rattle.sync_messages.specs.schema.Schemas.{IsSchemaOf, RefusedFor};
ghost use Rattle.sync_messages.specs.schema.Views.{schema_view};
ghost use Rattle.program_exchanges.specs.Outcomes.{HaveOneOutcome, OrderDoesNotMatter, RepeatsDoNotMatter};
ghost use Rattle.program_exchanges.specs.Outcomes.{GroupsDoNotMatter};

use schema_decisions::Policy;
use stamped_store::laws::updates_have_one_store;
use sync_messages::{
    Entity, SchemaTexts, bytes_have_one_outcome, messages_have_one_outcome,
    stored_texts_have_one_reading,
};

/// Proves that two messages merge to the same state in either order, that merging either again changes nothing, and
/// that a third may be merged in any grouping. The last two claims assume that the state of each merge on the way is
/// parsed back (`IsMergedBack`). Each state that `merge_texts` returns is parsed back. No-op.
pub fn order_and_repeats_do_not_matter()
    ensures order { OrderDoesNotMatter }
    ensures repeats { RepeatsDoNotMatter }
    ensures groups { GroupsDoNotMatter }
{
    updates_have_one_store();
    bytes_have_one_outcome();
}

/// Proves that merging two messages under a schema, all given as texts, has exactly one outcome, a state or an error,
/// whether the text of the schema is accepted or not. No-op.
pub fn merges_have_one_outcome()
    ensures stated { (bytes f g : List ℕ) (schema : SchemaKept) → IsSchemaOf bytes (schema_view schema)
        → HaveOneOutcome bytes f g }
    ensures unstated { (bytes f g : List ℕ) (fault : SchemaFault) → RefusedFor bytes fault → HaveOneOutcome bytes f g }
{
    bytes_have_one_outcome();
    messages_have_one_outcome::<Policy, Entity, SchemaTexts<'static>>();
    stored_texts_have_one_reading();
}
