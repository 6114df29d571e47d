//! Theorems about runs of a site. The functions are no-ops.
ghost use Rattle.std.specs.Prelude.{◌≡◌, ◌↔◌, ℕ, List, Contains};
ghost use Rattle.values.specs.declared.request.Request.{Request};
ghost use Rattle.site_meaning.specs.authoriser.declared.answer.Answer.{Answer};
ghost use Rattle.site_store.specs.schema.SchemaEntries.{SchemaEntries as SchemaKept};
ghost use Rattle.site_store.specs.schema.Schemas.{StatedSchema, IsSchemaOf};
ghost use Rattle.site_store.specs.schema.Views.{schema_view};
ghost use Rattle.site_store.specs.stamped_store.Store.{Store, Update};
ghost use Rattle.site_meaning.specs.StoreMeaning.{IsAnswerOver};
ghost use Rattle.sync_messages.specs.sync_format.Messages.{state_text};
ghost use Rattle.site.specs.Admitted.{IsPolicyUnder, IsEntityUnder};
ghost use Rattle.site.specs.Outcomes.{InputsHaveAnOutcome, InputsHaveOneOutcome};
ghost use Rattle.site.specs.Permitted.{RunsAreSound};
ghost use Rattle.site.specs.Runs.{IsLeftBy};

use crate::soundness_laws::stored_answers_are_sound;
use entities::requests_have_one_outcome;
use site_meaning::{
    contents_are_the_texts, paths_are_decided, requests_have_one_answer, stores_have_one_reading,
};
use site_store::{
    Entity, Policy, stamps_are_issued, texts_have_one_reading, updates_have_one_store,
};
use sync_messages::{
    SchemaTexts, messages_have_one_outcome, policies_have_one_outcome,
    stored_texts_have_one_reading,
};

/// Proves convergence: sites of one schema that had and applied equal sets of updates have equal stores. No-op.
///
/// The names of the sites do not matter, nor do the order, the repeats and the grouping of the updates. So these sites
/// write equal states and, under a schema that bytes describe, give equal answers.
pub fn equal_updates_leave_equal_stores()
    ensures stores { (schema : StatedSchema) (us vs : List Update) (s t : Store) → IsLeftBy schema us s
        → IsLeftBy schema vs t → ((u : Update) → (Contains us u ↔ Contains vs u)) → s ≡ t }
    ensures states { (schema : StatedSchema) (us vs : List Update) (s t : Store) → IsLeftBy schema us s
        → IsLeftBy schema vs t → ((u : Update) → (Contains us u ↔ Contains vs u))
        → state_text schema.label s ≡ state_text schema.label t }
    ensures answers { (bytes : List ℕ) (schema : SchemaKept) (us vs : List Update) (s t : Store) (q : Request)
        (a b : Answer) → IsSchemaOf bytes (schema_view schema) → IsLeftBy (schema_view schema) us s
        → IsLeftBy (schema_view schema) vs t → ((u : Update) → (Contains us u ↔ Contains vs u))
        → IsAnswerOver (IsPolicyUnder (schema_view schema)) (IsEntityUnder (schema_view schema)) (schema_view schema)
        s q a
        → IsAnswerOver (IsPolicyUnder (schema_view schema)) (IsEntityUnder (schema_view schema)) (schema_view schema)
        t q b
        → a ≡ b }
{
    updates_have_one_store();
    stored_texts_have_one_reading();
    requests_have_one_answer::<SchemaTexts<'static>>();
}

/// Proves that each input of a site has exactly one outcome if no allocation fails: one reply and one store. No-op.
///
/// This holds under each schema that bytes describe, over any store that a site of the schema may have. So each
/// rejection has the cause that its error names, and no input has two errors. A valid command is rejected only for an
/// absent name, a cycle or a full clock; a message of valid updates is never rejected.
pub fn inputs_have_one_outcome()
    ensures some { (bytes : List ℕ) (schema : SchemaKept) → IsSchemaOf bytes (schema_view schema)
        → InputsHaveAnOutcome (schema_view schema) }
    ensures one { (bytes : List ℕ) (schema : SchemaKept) → IsSchemaOf bytes (schema_view schema)
        → InputsHaveOneOutcome (schema_view schema) }
{
    messages_have_one_outcome::<Policy, Entity, SchemaTexts<'static>>();
    texts_have_one_reading();
    policies_have_one_outcome();
    stored_texts_have_one_reading();
    requests_have_one_outcome();
    stores_have_one_reading::<SchemaTexts<'static>>();
    requests_have_one_answer::<SchemaTexts<'static>>();
    updates_have_one_store();
    stamps_are_issued();
    contents_are_the_texts();
    paths_are_decided();
}

/// Proves that no answer in a run has an error of type, of an attribute or of an extension function: each error in an
/// answer is `EntityDoesNotExist` or `ArithBoundsError`. The schema must be one that bytes describe. No-op.
///
/// The same holds of answers over HTTP (`http_service::served_answers_are_sound`).
pub fn runs_are_sound()
    ensures { RunsAreSound }
{
    stored_answers_are_sound();
}
