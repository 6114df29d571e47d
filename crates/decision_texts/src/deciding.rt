//! The line of the answer to three texts: policies, entities and a request.
ghost use Rattle.std.specs.Prelude.{◌≡◌, map, string_bytes, IfOk, IfErr, MatchResult};
ghost use Rattle.plain.specs.AllocationErrors.{OrNoMemory};
ghost use Rattle.answer_lines.specs.authoriser.Answers.{IsAnswer};
ghost use Rattle.answer_lines.specs.authoriser.Views.{named};
ghost use Rattle.answer_lines.specs.Refusals.{no_memory};
ghost use Rattle.decision_texts.specs.BareReading.{bare_reading};
ghost use Rattle.decision_texts.specs.Requests.{IsRequestRefused};
ghost use Rattle.decision_texts.specs.Decisions.{named_policies, IsInOrder, IsAnswerTo, IsRequestAnswered};
ghost use Rattle.decision_texts.specs.Decisions.{AreInputsRejected, IsDecided, IsDecisionRefused};
ghost use Rattle.decision_texts.specs.StatedDecisions.{DescribesDecision, RejectsDecision};
ghost use Rattle.decision_texts.specs.DecisionLaws.{bare_setting};
ghost use Rattle.decision_texts.specs.inner.Stores.{entity_data_stored, IsLineIn, IsLineTo};

use crate::entity_array::read_entities;
use crate::laws::decisions_are_as_stated;
use crate::no_schema::NoSchema;
use crate::policies::admitted_policies;
use crate::request_reading::request_in;
use crate::setting::Setting;
use answer_lines::{Answer, Policy, Refusal, answer_line, decide};
use entity_data::{Entities, EntityStore};
use plain::NoMemory;
use std::alloc::Global;
use values::Request;

/// Returns references to the policies, in the same order.
fn referred<'p>(
    alloc: Global,
    policies: &'p [(String, Policy)],
) -> Result<Vec<(&'p str, &'p Policy)>, NoMemory>
    ensures { IfOk result (λ refs. named refs.items ≡ named_policies (map (λ p. string_bytes p.0) policies.now)
        (map (λ p. p.1) policies.now)) }
{
    let mut refs = Vec::with_capacity(alloc, policies.len())?;
    for (id, policy) in policies {
        refs.push((id.as_str(), policy))?;
    }
    Ok(refs)
}

/// Returns references to the policies, ascending by name.
fn in_order<'p>(
    alloc: Global,
    policies: &'p [(String, Policy)],
) -> Result<Vec<(&'p str, &'p Policy)>, NoMemory>
    ensures { IfOk result (λ refs. IsInOrder
        (named_policies (map (λ p. string_bytes p.0) policies.now) (map (λ p. p.1) policies.now)) (named refs.items)) }
{
    let mut refs = referred(alloc, policies)?;
    refs.sort_by_key(|p| p.0)?;
    Ok(refs)
}

/// Returns the answer to a request over these policies and entities, and the declared actions.
fn answer_over<S: Setting>(
    alloc: Global,
    setting: &S,
    policies: &[(&str, &Policy)],
    store: &EntityStore,
    request: &Request,
) -> Result<Answer, NoMemory>
    ensures { IfOk result
        (IsAnswer (entity_data_stored (S.reading setting.now) store.now) request.now (named policies.now)) }
{
    let world = Entities::new(alloc, store, setting.actions());
    decide(alloc, policies, request, &world)
}

/// Returns the answer to a request over the policies of a file, which are evaluated in the order of their names.
fn answer_to<S: Setting>(
    alloc: Global,
    setting: &S,
    policies: &[(String, Policy)],
    store: &EntityStore,
    request: &Request,
) -> Result<Answer, NoMemory>
    ensures { IfOk result (IsAnswerTo
        (named_policies (map (λ p. string_bytes p.0) policies.now) (map (λ p. p.1) policies.now))
        (entity_data_stored (S.reading setting.now) store.now) request.now) }
{
    let ordered = in_order(alloc, policies)?;
    answer_over(alloc, setting, &ordered, store, request)
}

/// Returns the line of the answer that [`answer_to`] returns.
fn answer_line_of<S: Setting>(
    alloc: Global,
    setting: &S,
    policies: &[(String, Policy)],
    store: &EntityStore,
    request: &Request,
) -> Result<Vec<u8>, NoMemory>
    ensures { IfOk result (λ line. IsLineIn
        (named_policies (map (λ p. string_bytes p.0) policies.now) (map (λ p. p.1) policies.now))
        (entity_data_stored (S.reading setting.now) store.now) request.now line.items) }
{
    let answer = answer_to(alloc, setting, policies, store, request)?;
    answer_line(alloc, &answer)
}

/// Returns the line of the answer to the request in a text, over these policies and entities, or the request's error.
fn line_to<S: Setting>(
    alloc: Global,
    setting: &S,
    policies: &[(String, Policy)],
    store: &EntityStore,
    request: &[u8],
) -> Result<Vec<u8>, Refusal>
    ensures told { IfOk result (λ line. IsLineTo (S.reading setting.now)
        (named_policies (map (λ p. string_bytes p.0) policies.now) (map (λ p. p.1) policies.now))
        (entity_data_stored (S.reading setting.now) store.now) request.now line.items) }
    ensures refused { IfErr result (OrNoMemory no_memory (IsRequestRefused (S.reading setting.now) request.now)) }
{
    let request = request_in(alloc, setting, request)?;
    Ok(answer_line_of(alloc, setting, policies, store, &request)?)
}

/// Returns the line of the answer to the request in a text, over these policies and the entities in another text. An
/// error of the entities is returned before one of the request.
fn answer_texts<S: Setting>(
    alloc: Global,
    setting: &S,
    policies: &[(String, Policy)],
    entities: &[u8],
    request: &[u8],
) -> Result<Vec<u8>, Refusal>
    ensures answered { IfOk result (λ line. IsRequestAnswered (S.reading setting.now)
        (named_policies (map (λ p. string_bytes p.0) policies.now) (map (λ p. p.1) policies.now))
        entities.now request.now line.items) }
    ensures refused { IfErr result
        (OrNoMemory no_memory (AreInputsRejected (S.reading setting.now) entities.now request.now)) }
{
    let store = read_entities(alloc, setting, entities)?;
    line_to(alloc, setting, policies, &store, request)
}

/// Returns the line of the answer to a request, over a file of policies and an array of entities, as the setting
/// parses them.
///
/// # Errors
///
/// In this order:
///
/// - 10 to 19, at a byte offset: the error of the file of policies (docs/codes.md, "Policies").
/// - The setting's error, if it does not admit these policies.
/// - 30 (bad shape), without a place: the text of the entities is not a JSON array.
/// - The error of the first rejected entity, at its index in the array, from 0: that of the entity itself, or 30 if an
///   earlier entity has its uid.
/// - The error of the request, without a place.
/// - `NoMemory` (1): an allocation failed; possible at any point.
pub fn decide_under_setting<S: Setting>(
    alloc: Global,
    setting: &S,
    policies: &[u8],
    entities: &[u8],
    request: &[u8],
) -> Result<Vec<u8>, Refusal>
    ensures decided { IfOk result
        (λ line. IsDecided (S.reading setting.now) policies.now entities.now request.now line.items) }
    ensures refused { IfErr result
        (OrNoMemory no_memory (IsDecisionRefused (S.reading setting.now) policies.now entities.now request.now)) }
{
    let policies = admitted_policies(alloc, setting, policies)?;
    answer_texts(alloc, setting, &policies, entities, request)
}

/// Returns the line of the answer to a request, over a file of policies and an array of entities, without a schema.
///
/// No type and no action is declared, an entity has no attributes, and the request's context is empty.
///
/// # Errors
///
/// In this order:
///
/// - 10 to 19, at a byte offset: the error of the file of policies (docs/codes.md, "Policies").
/// - 30 (bad shape), without a place: the text of the entities is not a JSON array.
/// - 30, at the index in the array, from 0: an item is not an entity, or an earlier item has the same uid.
/// - 30, without a place: the text of the request is not a request.
/// - `NoMemory` (1): an allocation failed; possible at any point.
pub fn decide_texts(
    alloc: Global,
    policies: &[u8],
    entities: &[u8],
    request: &[u8],
) -> Result<Vec<u8>, Refusal>
    ensures decided { IfOk result
        (λ line. IsDecided bare_reading policies.now entities.now request.now line.items) }
    ensures refused { IfErr result
        (OrNoMemory no_memory (IsDecisionRefused bare_reading policies.now entities.now request.now)) }
    ensures stated { MatchResult result
        (λ line. DescribesDecision bare_setting policies.now entities.now request.now line.items)
        (OrNoMemory no_memory (RejectsDecision bare_setting policies.now entities.now request.now)) }
{
    decisions_are_as_stated();
    decide_under_setting(alloc, &NoSchema, policies, entities, request)
}
