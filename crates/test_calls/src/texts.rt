//! Test cases of texts of the policy language and of JSON, and of positions in texts.
use crate::excerpts::{marked, placed};
use crate::keeping::ended;
use crate::pieces::Line;
use crate::written::{bad_row, text_of};
use json_words::{read_json, write_json};
use plain::NoMemory;
use policy_grammar::{LexFault, Token, tokens};
use serde_json::Value;
use std::alloc::Global;
use values::TypeName;

/// Returns the kind and the byte offset of a token, after a blank.
fn token_told(alloc: Global, token: Token) -> Result<String, NoMemory> {
    let (kind, start) = (token.kind, token.start);
    format!(in alloc; " {kind:?} {start}")
}

/// Returns the number of tokens, and a colon.
fn count_told(alloc: Global, count: usize) -> Result<String, NoMemory> {
    format!(in alloc; "{count}:")
}

/// Returns the number of tokens, and the kind and the byte offset of each.
fn listed(alloc: Global, found: &[Token]) -> Result<String, NoMemory> {
    let mut told = Line::new(alloc);
    told.push_made(count_told(alloc, found.len()));
    for token in found {
        told.push_made(token_told(alloc, *token));
    }
    told.ended()
}

/// Returns the tokens of a text, or the byte offset at which no token begins.
fn lexed(alloc: Global, text: &str) -> Result<String, NoMemory> {
    match tokens(alloc, text) {
        Ok(found) => listed(alloc, &found),
        Err(LexFault::BadToken(at)) => format!(in alloc; "no token at {at}"),
        Err(LexFault::NoMemory) => String::from_str(alloc, "refused"),
    }
}

/// Returns a JSON value as compact text.
fn compact_text(alloc: Global, value: &Value) -> Result<String, NoMemory> {
    let bytes = write_json(alloc, value)?;
    text_of(alloc, &bytes)
}

/// Returns the canonical form of a path.
fn name(alloc: Global, text: &str) -> Result<String, NoMemory> {
    match TypeName::parse(alloc, text)? {
        Some(name) => {
            let told = String::from_str(alloc, name.as_str());
            ended(name, told)
        }
        None => String::from_str(alloc, "no name"),
    }
}

/// Returns the compact text of JSON.
fn json(alloc: Global, bytes: &[u8]) -> Result<String, NoMemory> {
    match read_json(alloc, bytes)? {
        Some(value) => {
            let told = compact_text(alloc, &value);
            ended(value, told)
        }
        None => String::from_str(alloc, "no JSON"),
    }
}

/// Returns the outcome of the test case `word` for the text `text`.
fn of_text(alloc: Global, word: &str, text: &str) -> Result<String, NoMemory> {
    match word {
        "tokens" => lexed(alloc, text),
        "name" => name(alloc, text),
        "place" => placed(alloc, text),
        "excerpt" => marked(alloc, text),
        _ => bad_row(alloc),
    }
}

/// Returns the outcome of the test case `word` for the text `bytes`.
pub(crate) fn row_outcome(alloc: Global, word: &str, bytes: &[u8]) -> Result<String, NoMemory> {
    if word == "json" {
        return json(alloc, bytes);
    }
    match std::str::from_utf8(bytes) {
        Ok(text) => of_text(alloc, word, text),
        Err(_) => String::from_str(alloc, "no UTF-8"),
    }
}
