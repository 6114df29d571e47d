//! The parsing of texts of policies and of entities under a schema.
ghost use Rattle.std.specs.Prelude.{◌≡◌, ◌≢◌, ℕ, List, IfOk, IfErr, MatchResult, Ok, Err};
ghost use Rattle.std.specs.Str.{bytes_eq};
ghost use Rattle.serde_json.specs.View.{view};
ghost use Rattle.json_words.specs.ReadsAs.{ReadsAs, AlwaysReadsAs, or_fault, demand};
ghost use Rattle.json_words.specs.Json.{json_of};
ghost use Rattle.validator.specs.ancestor_search.Decided.{is_same};
ghost use Rattle.sync_format.specs.policy_grammar.Faults as grammar;
ghost use Rattle.sync_format.specs.policy_grammar.PolicyText.{IsPolicyText};
ghost use Rattle.validator.specs.schema.Views.{schema_view};
ghost use Rattle.validator.specs.entities.Entities.{entity_stated_in};
ghost use Rattle.validator.specs.entities.Canonical.{canonical_text};
ghost use Rattle.validator.specs.typing.Codes as validation;
ghost use Rattle.validator.specs.Passing.{Passes};
ghost use Rattle.plain.specs.AllocationErrors.{OrNoMemory};
ghost use Rattle.sync_messages.specs.Texts.{ReadsPolicy, RefusesPolicy, RefusesEntity, entity_of_text, refused_by};

use json_words::{Scratch, read_json_by};
use serde_json::Value;
use stamped_store::Readings;
use std::alloc::Global;
use sync_format::{Bodies, BodyFault, Policy, ReadFault, parse_policy};
use validator::{Entity, EntityFault, Schema, TypeFault, canonical_text, check, read_entity};
use values::EntityUid;

/// The parser of texts under a schema. Contracts state its results for the abstract schema (`schema_view`).
#[derive(Clone, Copy)]
pub struct SchemaTexts<'a> {
    /// The schema.
    pub schema: &'a Schema,
}

impl<'a> SchemaTexts<'a> {
    /// Creates the parser of texts under this schema. Does not allocate.
    pub fn under(schema: &'a Schema) -> Self
        ensures { result.schema.now ≡ schema.now }
    {
        SchemaTexts { schema }
    }
}

impl Readings<Policy, Entity> for SchemaTexts<'_> {
    ghost use Rattle.validator.specs.schema.Views.{schema_view};
    ghost use Rattle.sync_messages.specs.Texts.{ReadsPolicy, ReadsEntity};

    ghost reads_policy = { λ t _ text p. ReadsPolicy (schema_view t.schema.now) text p };

    ghost reads_entity = { λ t uid text e. ReadsEntity (schema_view t.schema.now) uid text e };
}

/// Converts the error of a text that is not a policy: `NoMemory` to `NoMemory`, any other to `Refused` with its code.
fn grammar_fault(fault: ReadFault) -> BodyFault
    ensures memory { fault ≡ ReadFault.NoMemory → result ≡ BodyFault.NoMemory }
    ensures refused { fault ≢ ReadFault.NoMemory → result ≡ BodyFault.Refused (grammar.code_of fault) }
{
    match fault {
        ReadFault::NoMemory => BodyFault::NoMemory,
        _ => BodyFault::Refused(fault.code()),
    }
}

/// Converts the error of a policy that does not pass validation: `NoMemory` to `NoMemory`, any other to `Refused` with
/// its code.
fn validation_fault(fault: TypeFault) -> BodyFault
    ensures memory { fault ≡ TypeFault.NoMemory → result ≡ BodyFault.NoMemory }
    ensures refused { fault ≢ TypeFault.NoMemory → result ≡ BodyFault.Refused (validation.code_of fault) }
{
    match fault {
        TypeFault::NoMemory => BodyFault::NoMemory,
        _ => BodyFault::Refused(fault.code()),
    }
}

/// Checks that a policy passes validation. Returns `Refused` with the code of its error if it does not, or `NoMemory`.
fn demand_passing(alloc: Global, schema: &Schema, policy: &Policy) -> Result<(), BodyFault>
    ensures passes { IfOk result (λ _. Passes (schema_view schema.now) policy.now) }
    ensures refused { IfErr result (λ f. (text : List ℕ) → IsPolicyText text policy.now
        → OrNoMemory BodyFault.NoMemory (RefusesPolicy (schema_view schema.now) text) f) }
{
    match check(alloc, schema, policy) {
        Ok(_) => Ok(()),
        Err(fault) => Err(validation_fault(fault)),
    }
}

/// Returns the policy if `passing` is a success, else the error in `passing`.
fn where_passing<P: Drop>(policy: P, passing: Result<(), BodyFault>) -> Result<P, BodyFault>
    ensures { MatchResult passing (λ _. result ≡ Ok policy) (λ f. result ≡ Err f) }
{
    match passing {
        Ok(()) => Ok(policy),
        Err(cause) => Err(cause),
    }
}

/// Parses the text of a policy, and checks that the policy passes validation. Returns `Refused` with the code of the
/// first error, or `NoMemory`.
fn passing_policy(alloc: Global, schema: &Schema, text: &str) -> Result<Policy, BodyFault>
    ensures read { IfOk result (ReadsPolicy (schema_view schema.now) text.now) }
    ensures refused { IfErr result (OrNoMemory BodyFault.NoMemory (RefusesPolicy (schema_view schema.now) text.now)) }
{
    match parse_policy(alloc, text) {
        Ok(policy) => {
            let passing = demand_passing(alloc, schema, &policy);
            where_passing(policy, passing)
        }
        Err(fault) => Err(grammar_fault(fault)),
    }
}

/// Parses a text as JSON. A text that is not JSON is rejected with the code 30 (bad shape).
fn json_in(alloc: Global, scratch: &mut Scratch, text: &str) -> Result<Value, BodyFault>
    ensures { ReadsAs BodyFault.NoMemory view result (or_fault (BodyFault.Refused 30) (json_of text.now)) }
{
    match read_json_by(scratch, alloc, text.as_bytes())? {
        Some(json) => Ok(json),
        None => Err(BodyFault::Refused(30)),
    }
}

/// Returns the entity that a JSON value describes under the schema, or `Refused` with the code of the value's error.
fn allowed_entity(alloc: Global, schema: &Schema, json: &Value) -> Result<Entity, BodyFault>
    ensures { ReadsAs BodyFault.NoMemory (λ e. e) result
        (refused_by (entity_stated_in (schema_view schema.now) (view json.now))) }
{
    match read_entity(alloc, schema, json) {
        Ok(entity) => Ok(entity),
        Err(EntityFault::NoMemory) => Err(BodyFault::NoMemory),
        Err(fault) => Err(BodyFault::Refused(fault.code())),
    }
}

/// Checks that a text is the canonical text of an entity. Another text is rejected with the code 57 (not canonical).
fn demand_canonical(alloc: Global, entity: &Entity, text: &str) -> Result<(), BodyFault>
    ensures { ReadsAs BodyFault.NoMemory (λ u. u) result
        (demand (BodyFault.Refused 57) (bytes_eq (canonical_text entity.now) text.now)) }
{
    let canonical = canonical_text(alloc, entity)?;
    if canonical.as_slice() == text.as_bytes() {
        Ok(())
    } else {
        Err(BodyFault::Refused(57))
    }
}

/// Checks that an entity has this uid. An entity with another uid is rejected with `OtherName`.
fn demand_uid(entity: &Entity, uid: &EntityUid) -> Result<(), BodyFault>
    ensures { AlwaysReadsAs (λ u. u) result (demand BodyFault.OtherName (is_same entity.now.uid uid.now)) }
{
    if entity.uid == *uid {
        Ok(())
    } else {
        Err(BodyFault::OtherName)
    }
}

/// Parses a text as the canonical text of the entity with this uid, or returns the first error of the text.
#[tactic(auto, unfolding(crate::specs::Texts::entity_of_text))]
fn canonical_entity(
    alloc: Global,
    scratch: &mut Scratch,
    schema: &Schema,
    uid: &EntityUid,
    text: &str,
) -> Result<Entity, BodyFault>
    ensures { ReadsAs BodyFault.NoMemory (λ e. e) result (entity_of_text (schema_view schema.now) uid.now text.now) }
{
    let json = json_in(alloc, scratch, text)?;
    let entity = allowed_entity(alloc, schema, &json)?;
    demand_canonical(alloc, &entity, text)?;
    demand_uid(&entity, uid)?;
    Ok(entity)
}

impl Bodies<Policy, Entity> for SchemaTexts<'_> {
    ghost refuses_policy = { λ t _ text f. RefusesPolicy (schema_view t.schema.now) text f };

    ghost refuses_entity = { λ t uid text f. RefusesEntity (schema_view t.schema.now) uid text f };

    fn read_policy(&self, alloc: Global, _id: &str, text: &str) -> Result<Policy, BodyFault> {
        passing_policy(alloc, self.schema, text)
    }

    fn read_entity(
        &self,
        alloc: Global,
        scratch: &mut Scratch,
        uid: &EntityUid,
        text: &str,
    ) -> Result<Entity, BodyFault> {
        canonical_entity(alloc, scratch, self.schema, uid, text)
    }
}
