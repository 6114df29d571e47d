//! Theorems about the meaning of a store. The functions are no-ops.
ghost use Rattle.std.specs.Prelude.{◌≡◌, ◌↔◌, ℕ, List, Option, Some, Contains, map};
ghost use Rattle.values.specs.declared.entity_uid.EntityUid.{EntityUid};
ghost use Rattle.values.specs.declared.request.Request.{Request as PlainRequest};
ghost use Rattle.entity_hierarchy.specs.authoriser.declared.answer.Answer.{Answer as PlainAnswer};
ghost use Rattle.entity_hierarchy.specs.authoriser.Answers.{NamedPolicy};
ghost use Rattle.entity_hierarchy.specs.authoriser.Laws.{AreIdsAscending};
ghost use Rattle.entity_hierarchy.specs.schema.Schemas.{StatedSchema, IsSchemaOf};
ghost use Rattle.entity_hierarchy.specs.entity_data.declared.entity.Entity.{Entity as PlainEntity};
ghost use Rattle.stamped_store.specs.Store.{Store, policy_name, entity_name};
ghost use Rattle.stamped_store.specs.Contents.{text_under};
ghost use Rattle.site_meaning.specs.StoreMeaning.{ArePolicies, AreEntities, HaveOneReading, IsAnswerOver};
ghost use Rattle.site_meaning.specs.ByMemberOf.{StoredActionsAnswerAlike, StoredActionsCycleAlike};
ghost use Rattle.site_meaning.specs.ByMemberOf.{StoredActionsAllowAlike};

use entity_hierarchy::{Entity, Policy, actions_may_be_closed, answers_are_lawful};
use stamped_store::Readings;
use stamped_store::laws::contents_are_the_texts;

/// Proves that, if a text has at most one value under each name, a store has at most one list of policies and at most
/// one entity at each uid. No-op.
///
/// The policies and entities are then exactly the values of the texts in the store. The ids of the policies ascend.
pub fn stores_have_one_reading<R: Readings<Policy, Entity>>()
    ensures policies { (r : R) (s : Store) (ps qs : List NamedPolicy) → HaveOneReading (R.reads_policy r)
        → ArePolicies (R.reads_policy r) s ps → ArePolicies (R.reads_policy r) s qs → ps ≡ qs }
    ensures entities { (r : R) (s : Store) (es fs : EntityUid → Option PlainEntity) → HaveOneReading (R.reads_entity r)
        → AreEntities (R.reads_entity r) s es → AreEntities (R.reads_entity r) s fs → es ≡ fs }
    ensures policy { (r : R) (s : Store) (ps : List NamedPolicy) → HaveOneReading (R.reads_policy r)
        → ArePolicies (R.reads_policy r) s ps → (p : NamedPolicy)
        → Contains ps p ↔ ((text : List ℕ) × (text_under s (policy_name p.id) ≡ Some text)
        × R.reads_policy r p.id text p.policy) }
    ensures entity { (r : R) (s : Store) (es : EntityUid → Option PlainEntity) → HaveOneReading (R.reads_entity r)
        → AreEntities (R.reads_entity r) s es → (uid : EntityUid) (e : PlainEntity)
        → (es uid ≡ Some e) ↔ ((text : List ℕ) × (text_under s (entity_name uid) ≡ Some text)
        × R.reads_entity r uid text e) }
    ensures ascending { (r : R) (s : Store) (ps : List NamedPolicy) → ArePolicies (R.reads_policy r) s ps
        → AreIdsAscending (map (λ p. p.id) ps) }
{
    contents_are_the_texts();
}

/// Proves when a request has an answer over a store, and when it has only one, under a schema that bytes describe.
/// No-op.
///
/// There is at least one answer if each text has a value, and at most one if a text has at most one value under each
/// name. So equal stores give equal answers.
pub fn requests_have_one_answer<R: Readings<Policy, Entity>>()
    ensures some { (r : R) (bytes : List ℕ) (schema : StatedSchema) (s : Store) (ps : List NamedPolicy)
        (es : EntityUid → Option PlainEntity) (q : PlainRequest) → IsSchemaOf bytes schema
        → ArePolicies (R.reads_policy r) s ps → AreEntities (R.reads_entity r) s es
        → (a : PlainAnswer) × IsAnswerOver (R.reads_policy r) (R.reads_entity r) schema s q a }
    ensures one { (r : R) (bytes : List ℕ) (schema : StatedSchema) (s : Store) (q : PlainRequest) (a b : PlainAnswer)
        → IsSchemaOf bytes schema → HaveOneReading (R.reads_policy r) → HaveOneReading (R.reads_entity r)
        → IsAnswerOver (R.reads_policy r) (R.reads_entity r) schema s q a
        → IsAnswerOver (R.reads_policy r) (R.reads_entity r) schema s q b → a ≡ b }
{
    answers_are_lawful();
    contents_are_the_texts();
}

/// Proves that answers and cycles over a store are those over the same store where each action has only the parents
/// that its `memberOf` names. No-op.
///
/// Under a schema that bytes describe, an answer over a store is an answer where actions have only these parents, and
/// conversely. An entity that is put, whatever its uid, becomes cyclic if and only if it becomes cyclic where actions
/// have only these parents. Both hold whatever the texts are parsed as.
pub fn stored_actions_answer_alike<R: Readings<Policy, Entity>>()
    ensures answers { (r : R) → StoredActionsAnswerAlike (R.reads_policy r) (R.reads_entity r) }
    ensures cycles { (r : R) → StoredActionsCycleAlike (R.reads_entity r) }
    ensures no_cycles { (r : R) → StoredActionsAllowAlike (R.reads_entity r) }
{
    actions_may_be_closed();
}
