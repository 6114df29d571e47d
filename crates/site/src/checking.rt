//! Those checks of inputs that need only the schema, not the store.
ghost use Rattle.std.specs.Prelude.{◌≡◌, ◌≢◌, ◌↔◌, ℕ, List, IsTrue, IfOk, IfErr, Some, Ok, Err, string_bytes};
ghost use Rattle.std.specs.Str.{IsUtf8};
ghost use Rattle.serde_json.specs.View.{view};
ghost use Rattle.plain.specs.Words.{IsPath};
ghost use Rattle.site_store.specs.policy_grammar.Limits.{IsId};
ghost use Rattle.site_store.specs.policy_grammar.PolicyText.{IsPolicyText};
ghost use Rattle.site_store.specs.schema.Views.{schema_view};
ghost use Rattle.entities.specs.Canonical.{canonical_text};
ghost use Rattle.entities.specs.Entities.{entity_stated_in};
ghost use Rattle.sync_messages.specs.validator.Passing.{Passes, IsImpossible};
ghost use Rattle.plain.specs.AllocationErrors.{OrNoMemory};
ghost use Rattle.site.specs.declared.fault.SiteFault.TheVariants as SiteFault;
ghost use Rattle.site.specs.Admitted.{IsEntityUnder, IsNoEntityFault, IsNotAdmitted, IsPolicyId, IsRequestOf};
ghost use Rattle.site.specs.Admitted.{IsStatedBy};
ghost use Rattle.site.specs.inner.Recording.{IsDescribed, IsNoRequestFault};
ghost use Rattle.site.specs.inner.Recording.{IsCheckedPolicy};

use crate::fault::SiteFault;
use entities::{EntityFault, canonical_text, entities_read_back, read_entity, read_request};
use entity_uids::names_read_back;
use plain::{NoMemory, Text};
use serde_json::Value;
use site_store::{
    Entity, MOST_ID_BYTES, Policy, ReadFault, ReadText, Schema, parse_policy,
    stated_schemas_are_well_formed,
};
use std::alloc::Global;
use sync_messages::check;
use values::{EntityUid, Request};

// ---- policies

/// Returns whether a policy may have this id: whether the id has 1 to 256 bytes.
pub(crate) fn is_id(id: &str) -> bool
    ensures { IsTrue result ↔ IsId id.now }
{
    1 <= id.len() && id.len() <= MOST_ID_BYTES
}

/// Validates a policy, and returns whether the policy is impossible, or the site's error for the validator's error.
fn is_impossible(alloc: Global, schema: &Schema, policy: &Policy) -> Result<bool, SiteFault>
    ensures passes { IfOk result (λ yes. Passes (schema_view schema.now) policy.now
        × (IsTrue yes ↔ IsImpossible (schema_view schema.now) policy.now)) }
    ensures refused { IfErr result (λ f. (id text : List ℕ) → IsPolicyId id → IsUtf8 text
        → IsPolicyText text policy.now
        → OrNoMemory SiteFault.NoMemory (IsNotAdmitted (schema_view schema.now) id text) f) }
{
    match check(alloc, schema, policy) {
        Ok(verdict) => Ok(verdict.impossible),
        Err(fault) => Err(SiteFault::from(fault)),
    }
}

/// A policy that may be put: its id, its text with its parsed value, and whether it is impossible.
#[derive(Drop)]
pub(crate) struct CheckedPolicy<P> {
    pub(crate) id: String,
    pub(crate) body: ReadText<P>,
    pub(crate) impossible: bool,
}

/// Returns a parsed policy together with its id, its text and whether it is impossible; or the first error: that of
/// `verdict`, else of `id`, else of `text`.
fn with_verdict<P: Drop>(
    read: P,
    verdict: Result<bool, SiteFault>,
    id: Result<String, NoMemory>,
    text: Result<Text, NoMemory>,
) -> Result<CheckedPolicy<P>, SiteFault>
    ensures all { IfOk result (λ j. (j.body.read ≡ read) × (verdict ≡ Ok j.impossible) × (id ≡ Ok j.id)
        × (text ≡ Ok j.body.text)) }
    ensures refused { IfErr result (λ f. f ≢ SiteFault.NoMemory → verdict ≡ Err f) }
{
    let impossible = verdict?;
    let id = id?;
    let text = text?;
    let body = ReadText { text, read };
    Ok(CheckedPolicy {
        id,
        body,
        impossible,
    })
}

/// Returns a copy of a string.
fn copy_text(alloc: Global, text: &str) -> Result<Text, NoMemory>
    ensures { IfOk result (λ t. t ≡ text.now) }
{
    Text::from_str(alloc, text)
}

/// Returns a policy that may be put; or the first error, of its id, else of its text, else of its validation; or
/// `NoMemory`.
pub(crate) fn checked_policy(
    alloc: Global,
    schema: &Schema,
    id: &str,
    text: &str,
) -> Result<CheckedPolicy<Policy>, SiteFault>
    ensures named { IfOk result (λ j. string_bytes j.id ≡ id.now) }
    ensures judged { IfOk result
        (λ j. IsCheckedPolicy (schema_view schema.now) id.now text.now j.body j.impossible) }
    ensures refused { IfErr result
        (OrNoMemory SiteFault.NoMemory (IsNotAdmitted (schema_view schema.now) id.now text.now)) }
{
    if !is_id(id) {
        return Err(SiteFault::Policy(ReadFault::BadId));
    }
    match parse_policy(alloc, text) {
        Ok(policy) => {
            let verdict = is_impossible(alloc, schema, &policy);
            let id = String::from_str(alloc, id);
            let text = copy_text(alloc, text);
            with_verdict(policy, verdict, id, text)
        }
        Err(fault) => Err(SiteFault::from(fault)),
    }
}

// ---- entities

/// Returns the entity that `json` describes, or the site's error for `json`, or `NoMemory`.
fn entity_of(alloc: Global, schema: &Schema, json: &Value) -> Result<Entity, SiteFault>
    ensures states { IfOk result (λ e. entity_stated_in (schema_view schema.now) (view json.now) ≡ Ok e) }
    ensures path { IfOk result (λ e. IsPath e.uid.type_name) }
    ensures refused { IfErr result
        (OrNoMemory SiteFault.NoMemory (IsNoEntityFault (schema_view schema.now) (Some (view json.now)))) }
{
    names_read_back();
    match read_entity(alloc, schema, json) {
        Ok(entity) => Ok(entity),
        Err(EntityFault::NoMemory) => Err(SiteFault::NoMemory),
        Err(fault) => Err(SiteFault::Entity(fault)),
    }
}

/// Returns the canonical text of an entity that some JSON describes; the text is parsed as this entity.
fn text_of(alloc: Global, schema: &Schema, entity: &Entity) -> Result<Text, NoMemory>
    requires { IsDescribed (schema_view schema.now) entity.now }
    ensures text { IfOk result (λ t. t ≡ canonical_text entity.now) }
    ensures reads { IfOk result (λ t. IsEntityUnder (schema_view schema.now) entity.now.uid t entity.now) }
{
    schema.is_stated();
    stated_schemas_are_well_formed();
    entities_read_back();
    let bytes = canonical_text(alloc, entity)?;
    match String::from_utf8(bytes) {
        Ok(text) => Ok(Text::from_string(text)),
        Err(_) => unreachable!(),
    }
}

/// Returns a parsed value together with its name and its text, or `NoMemory`.
fn with_name_and_text<N: Drop, P: Drop>(
    read: P,
    name: Result<N, NoMemory>,
    text: Result<Text, NoMemory>,
) -> Result<(N, ReadText<P>), SiteFault>
    ensures all { IfOk result (λ b. (b.1.read ≡ read) × (name ≡ Ok b.0) × (text ≡ Ok b.1.text)) }
    ensures refused { IfErr result (λ f. f ≡ SiteFault.NoMemory) }
{
    let name = name?;
    let text = text?;
    Ok((name, ReadText { text, read }))
}

/// Returns the uid of the entity that `json` describes, and the entity with its canonical text; or the site's error for
/// `json`, or `NoMemory`.
pub fn stated_entity(
    alloc: Global,
    schema: &Schema,
    json: &Value,
) -> Result<(EntityUid, ReadText<Entity>), SiteFault>
    ensures named { IfOk result (λ b. b.0 ≡ b.1.read.uid) }
    ensures stated { IfOk result (λ b. IsStatedBy (schema_view schema.now) (Some (view json.now)) b.1) }
    ensures refused { IfErr result
        (OrNoMemory SiteFault.NoMemory (IsNoEntityFault (schema_view schema.now) (Some (view json.now)))) }
{
    match entity_of(alloc, schema, json) {
        Ok(entity) => {
            let uid = entity.uid.copy();
            let text = text_of(alloc, schema, &entity);
            with_name_and_text(entity, uid, text)
        }
        Err(fault) => Err(fault),
    }
}

// ---- requests

/// Returns the request that `json` describes, or the site's error for `json`, or `NoMemory`.
pub(crate) fn stated_request(
    alloc: Global,
    schema: &Schema,
    json: &Value,
) -> Result<Request, SiteFault>
    ensures stated { IfOk result (IsRequestOf (schema_view schema.now) (Some (view json.now))) }
    ensures refused { IfErr result
        (OrNoMemory SiteFault.NoMemory (IsNoRequestFault (schema_view schema.now) (Some (view json.now)))) }
{
    match read_request(alloc, schema, json) {
        Ok(request) => Ok(request),
        Err(EntityFault::NoMemory) => Err(SiteFault::NoMemory),
        Err(fault) => Err(SiteFault::Request(fault)),
    }
}
