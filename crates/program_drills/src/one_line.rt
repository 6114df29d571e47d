//! Parses a line of a script.
ghost use Rattle.std.specs.Prelude.{◌≡◌, ◌≤◌, ◌+◌, ◌<◌, IfOk, OnSome, Some, None, option_and_then, option_map, codes};
ghost use Rattle.serde_json.specs.Data.{depth};
ghost use Rattle.serde_json.specs.Find.{get};
ghost use Rattle.serde_json.specs.Read.{max_depth};
ghost use Rattle.serde_json.specs.View.{view};
ghost use Rattle.json_words.specs.Json.{json_of, text_at};
ghost use Rattle.program_drills.specs.ScriptLines.{operation_named, authorize, delivered, delta_offered};
ghost use Rattle.program_drills.specs.ScriptLines.{delete_entity, number_in};
ghost use Rattle.program_drills.specs.ScriptLines.{policy_deleted, policy_put, put_entity, described_script_line};
ghost use Rattle.program_drills.specs.ScriptLines.{script_line_of, within};
ghost use Rattle.program_drills.specs.inner.Reading.{IsReadAs, IsLineRead, AreBytesOf};

use crate::made::MadeCounts;
use http_service::{Event, Operation};
use json_words::{read_json, text_at, write_json};
use plain::{Items, NoMemory};
use serde_json::Value;
use std::alloc::Global;

/// Returns the number, if it is at least `least` and below `most`.
fn within(least: u64, most: u64, number: Option<u64>) -> Option<u64>
    ensures { result ≡ within least most number }
{
    match number {
        Some(number) if least <= number && number < most => Some(number),
        _ => None,
    }
}

/// Returns the number at a key, if it is at least `least` and below `most`.
fn number_in(value: &Value, key: &str, least: usize, most: usize) -> Option<usize>
    ensures { result ≡ number_in key.now least most (view value.now) }
{
    let Some(found) = value.get(key) else {
        return None;
    };
    match within(least as u64, most as u64, found.as_u64()) {
        Some(number) => Some(number as usize),
        None => None,
    }
}

/// Returns the JSON at a key as bytes, or `None` without this key.
fn bytes_at(alloc: Global, value: &Value, key: &str) -> Result<Option<Items<u8>>, NoMemory>
    requires { depth (view value.now) ≤ max_depth }
    ensures { IfOk result (AreBytesOf (get key.now (view value.now))) }
{
    let Some(found) = value.get(key) else {
        return Ok(None);
    };
    let bytes = write_json(alloc, found)?;
    Ok(Some(Items::from_vec(bytes)))
}

/// Returns a copy of the bytes of a string.
fn bytes_of(alloc: Global, text: &str) -> Result<Items<u8>, NoMemory>
    ensures { IfOk result (λ bytes. bytes ≡ text.now) }
{
    let mut bytes = Vec::new(alloc);
    bytes.extend_from_slice(text.as_bytes())?;
    Ok(Items::from_vec(bytes))
}

/// Returns the put of a policy, if its id and its text are present.
fn policy_put(alloc: Global, value: &Value) -> Result<Option<Operation>, NoMemory>
    ensures { IfOk result (IsReadAs
        (policy_put (text_at (codes "id") (view value.now)) (text_at (codes "text") (view value.now)))) }
{
    let Some(id) = text_at(value, "id") else {
        return Ok(None);
    };
    let Some(text) = text_at(value, "text") else {
        return Ok(None);
    };
    let id = bytes_of(alloc, id)?;
    let text = bytes_of(alloc, text)?;
    Ok(Some(Operation::PutPolicy(id, text)))
}

/// Returns the deletion of a policy, if its id is present.
fn policy_deleted(alloc: Global, value: &Value) -> Result<Option<Operation>, NoMemory>
    ensures { IfOk result (IsReadAs (option_map policy_deleted (text_at (codes "id") (view value.now)))) }
{
    let Some(id) = text_at(value, "id") else {
        return Ok(None);
    };
    let id = bytes_of(alloc, id)?;
    Ok(Some(Operation::DeletePolicy(id)))
}

/// Returns the put of an entity, if it is present.
fn entity_put(alloc: Global, value: &Value) -> Result<Option<Operation>, NoMemory>
    requires { depth (view value.now) ≤ max_depth }
    ensures { IfOk result (IsReadAs (option_map put_entity (get (codes "entity") (view value.now)))) }
{
    match bytes_at(alloc, value, "entity")? {
        Some(bytes) => Ok(Some(Operation::PutEntity(bytes))),
        None => Ok(None),
    }
}

/// Returns the deletion of an entity, if the JSON of a uid is present.
fn entity_deleted(alloc: Global, value: &Value) -> Result<Option<Operation>, NoMemory>
    requires { depth (view value.now) ≤ max_depth }
    ensures { IfOk result (IsReadAs (option_map delete_entity (get (codes "uid") (view value.now)))) }
{
    match bytes_at(alloc, value, "uid")? {
        Some(bytes) => Ok(Some(Operation::DeleteEntity(bytes))),
        None => Ok(None),
    }
}

/// Returns the operation that decides a request, if the request is present.
fn authorized(alloc: Global, value: &Value) -> Result<Option<Operation>, NoMemory>
    requires { depth (view value.now) ≤ max_depth }
    ensures { IfOk result (IsReadAs (option_map authorize (get (codes "request") (view value.now)))) }
{
    match bytes_at(alloc, value, "request")? {
        Some(bytes) => Ok(Some(Operation::Authorize(bytes))),
        None => Ok(None),
    }
}

/// Returns the offer of a delta against a summary, if the line has the number of a summary that an earlier line makes.
fn delta_offered(value: &Value, made: MadeCounts) -> Option<Operation>
    ensures { IsReadAs (option_map delta_offered (number_in (codes "summary") 0 made.summaries (view value.now)))
        result }
{
    match number_in(value, "summary", 0, made.summaries) {
        Some(number) => Some(Operation::OfferDelta(number)),
        None => None,
    }
}

/// Returns the delivery of a message, if the line has the number of a message that an earlier line makes.
fn delivered(value: &Value, made: MadeCounts) -> Option<Operation>
    ensures { IsReadAs (option_map delivered (number_in (codes "message") 0 made.messages (view value.now))) result }
{
    match number_in(value, "message", 0, made.messages) {
        Some(number) => Some(Operation::Deliver(number)),
        None => None,
    }
}

/// Returns the operation that `word` names, with the other members of the line as its arguments.
#[tactic(auto, unfolding(crate::specs::ScriptLines::operation_named))]
fn operation_named(
    alloc: Global,
    made: MadeCounts,
    word: &str,
    value: &Value,
) -> Result<Option<Operation>, NoMemory>
    requires { depth (view value.now) ≤ max_depth }
    ensures { IfOk result (IsReadAs (operation_named made word.now (view value.now))) }
{
    if word == "put_policy" {
        return policy_put(alloc, value);
    }
    if word == "delete_policy" {
        return policy_deleted(alloc, value);
    }
    if word == "put_entity" {
        return entity_put(alloc, value);
    }
    if word == "delete_entity" {
        return entity_deleted(alloc, value);
    }
    if word == "authorize" {
        return authorized(alloc, value);
    }
    if word == "summary" {
        return Ok(Some(Operation::Summary));
    }
    if word == "offer" {
        return Ok(Some(Operation::Offer));
    }
    if word == "offer_delta" {
        return Ok(delta_offered(value, made));
    }
    if word == "deliver" {
        return Ok(delivered(value, made));
    }
    Ok(None)
}

/// Returns the event that a JSON value describes for one of `count` sites, if it describes one.
#[tactic(auto, unfolding(crate::specs::ScriptLines::described_script_line))]
fn described_script_line(
    alloc: Global,
    count: u16,
    made: MadeCounts,
    value: &Value,
) -> Result<Option<Event>, NoMemory>
    requires { depth (view value.now) ≤ max_depth }
    ensures { IfOk result (IsLineRead (described_script_line count made (view value.now))) }
{
    let Some(site) = number_in(value, "site", 1, count as usize + 1) else {
        return Ok(None);
    };
    let Some(word) = text_at(value, "do") else {
        return Ok(None);
    };
    match operation_named(alloc, made, word, value)? {
        Some(operation) => Ok(Some(Event { site, operation })),
        None => Ok(None),
    }
}

/// Returns the event that a line describes for one of `count` sites, or `None` if it is not an event. `made` counts the
/// messages and summaries that earlier lines make.
///
/// # Errors
///
/// - `NoMemory`: an allocation failed.
pub(crate) fn script_line_of(
    alloc: Global,
    count: u16,
    made: MadeCounts,
    line: &[u8],
) -> Result<Option<Event>, NoMemory>
    ensures { IfOk result (IsLineRead (script_line_of count made line.now)) }
{
    match read_json(alloc, line)? {
        Some(value) => described_script_line(alloc, count, made, &value),
        None => Ok(None),
    }
}
