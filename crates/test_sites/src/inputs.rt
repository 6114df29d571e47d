//! Inputs as a test case writes them.
use crate::line::BETWEEN;
use crate::written::{expanded, expanded_text, first_word};
use http_service::Input;
use json_words::write_json;
use plain::{Items, NoMemory, pair_with};
use serde_json::{Value, json};
use std::alloc::Global;

/// An input that owns its bytes, as a test case writes it.
#[derive(Drop)]
pub(crate) enum OwnedInput {
    PutPolicy(Items<u8>, Items<u8>),
    DeletePolicy(Items<u8>),
    PutEntity(Items<u8>),
    DeleteEntity(Items<u8>),
    Take(Items<u8>),
    Authorize(Items<u8>),
    GetPolicy(Items<u8>),
    State,
    Summary,
    Delta(Items<u8>),
}

impl OwnedInput {
    /// Returns this input, with its bytes borrowed.
    fn lent(&self) -> Input<'_> {
        match self {
            OwnedInput::PutPolicy(id, text) => Input::PutPolicy(id.as_slice(), text.as_slice()),
            OwnedInput::DeletePolicy(id) => Input::DeletePolicy(id.as_slice()),
            OwnedInput::PutEntity(bytes) => Input::PutEntity(bytes.as_slice()),
            OwnedInput::DeleteEntity(uid) => Input::DeleteEntity(uid.as_slice()),
            OwnedInput::Take(bytes) => Input::Take(bytes.as_slice()),
            OwnedInput::Authorize(bytes) => Input::Authorize(bytes.as_slice()),
            OwnedInput::GetPolicy(id) => Input::GetPolicy(id.as_slice()),
            OwnedInput::State => Input::State,
            OwnedInput::Summary => Input::Summary,
            OwnedInput::Delta(bytes) => Input::Delta(bytes.as_slice()),
        }
    }
}

/// Returns these inputs, with their bytes borrowed.
pub(crate) fn all_lent(alloc: Global, inputs: &[OwnedInput]) -> Result<Vec<Input<'_>>, NoMemory> {
    let mut lent = Vec::with_capacity(alloc, inputs.len())?;
    for input in inputs {
        lent.push(input.lent())?;
    }
    Ok(lent)
}

/// Returns the bytes that a string denotes.
fn bytes_of(alloc: Global, text: &str) -> Result<Items<u8>, NoMemory> {
    Ok(Items::from_vec(expanded(alloc, text)?))
}

/// Returns the input that puts a policy. The string has the policy's id, a blank and the policy's text.
fn policy_put(alloc: Global, text: &str) -> Result<Option<OwnedInput>, NoMemory> {
    let (id, text) = first_word(text);
    let id = bytes_of(alloc, id)?;
    let (id, text) = pair_with(id, bytes_of(alloc, text))?;
    Ok(Some(OwnedInput::PutPolicy(id, text)))
}

/// Returns the JSON of the uid with this type and this id.
fn uid_value(alloc: Global, type_name: &str, id: &str) -> Result<Value, NoMemory> {
    json!(in alloc; {"id": id, "type": type_name})
}

/// Returns the input that deletes an entity. The string has the entity's type, a blank and the entity's id.
fn entity_deleted(alloc: Global, text: &str) -> Result<Option<OwnedInput>, NoMemory> {
    let (type_name, id) = first_word(text);
    let id = expanded_text(alloc, id)?;
    let uid = uid_value(alloc, type_name, id.as_str())?;
    let bytes = Items::from_vec(write_json(alloc, &uid)?);
    Ok(Some(OwnedInput::DeleteEntity(bytes)))
}

/// Returns the deletion or the look-up of the policy with this id.
fn input_by_id(alloc: Global, word: &str, id: &str) -> Result<Option<OwnedInput>, NoMemory> {
    let id = bytes_of(alloc, id)?;
    match word {
        "delete_policy" => Ok(Some(OwnedInput::DeletePolicy(id))),
        _ => Ok(Some(OwnedInput::GetPolicy(id))),
    }
}

/// Returns the input of this word with these bytes: an entity, a message, a request or a summary.
pub(crate) fn input_of_bytes<'a>(word: &str, bytes: &'a [u8]) -> Input<'a> {
    match word {
        "put_entity" => Input::PutEntity(bytes),
        "take" => Input::Take(bytes),
        "authorize" => Input::Authorize(bytes),
        _ => Input::Delta(bytes),
    }
}

/// Returns the input of this word with the bytes that a string denotes.
fn input_by_bytes(alloc: Global, word: &str, text: &str) -> Result<Option<OwnedInput>, NoMemory> {
    let bytes = bytes_of(alloc, text)?;
    match word {
        "put_entity" => Ok(Some(OwnedInput::PutEntity(bytes))),
        "take" => Ok(Some(OwnedInput::Take(bytes))),
        "authorize" => Ok(Some(OwnedInput::Authorize(bytes))),
        _ => Ok(Some(OwnedInput::Delta(bytes))),
    }
}

/// Returns the input that a string describes, if it describes one.
pub(crate) fn input_of(alloc: Global, text: &str) -> Result<Option<OwnedInput>, NoMemory> {
    let (word, text) = first_word(text);
    match word {
        "put_policy" => policy_put(alloc, text),
        "delete_policy" | "get_policy" => input_by_id(alloc, word, text),
        "put_entity" | "take" | "authorize" | "delta" => input_by_bytes(alloc, word, text),
        "delete_entity" => entity_deleted(alloc, text),
        "state" => Ok(Some(OwnedInput::State)),
        "summary" => Ok(Some(OwnedInput::Summary)),
        _ => Ok(None),
    }
}

/// Appends the input that a string describes. Returns whether it describes one.
fn push_input(alloc: Global, inputs: &mut Vec<OwnedInput>, text: &str) -> Result<bool, NoMemory> {
    match input_of(alloc, text)? {
        Some(input) => {
            inputs.push(input)?;
            Ok(true)
        }
        None => Ok(false),
    }
}

/// Returns the inputs that a string describes; `None` if one of its parts does not describe an input.
pub(crate) fn inputs_of(alloc: Global, text: &str) -> Result<Option<Vec<OwnedInput>>, NoMemory> {
    let mut inputs = Vec::new(alloc);
    for one in text.split(BETWEEN) {
        if !push_input(alloc, &mut inputs, one)? {
            return Ok(None);
        }
    }
    Ok(Some(inputs))
}
