//! Parsing of JSON values from the tokens of a reader. A function that parses a value returns `None` if the tokens do
//! not describe such a value.
ghost use Rattle.std.specs.Prelude.{◌≡◌, ◌<◌, length, option_map, IfOk, IfSome};
ghost use Rattle.json.specs.Reads.{token_of};
ghost use Rattle.serde_json.specs.View.{view};
ghost use Rattle.json_words.specs.Arrays.{array_at};
ghost use Rattle.json_words.specs.inner.Given.{value_at, object_at, IsGiven, scalar};
ghost use Rattle.json_words.specs.inner.Given.{is_array_start, is_object_start};

use crate::numbers::number_in;
use json::{Reader, Token};
use plain::NoMemory;
use serde_json::{Map, Value};
use std::alloc::Global;

/// Returns the next value of the reader, or `None` if no value follows, if the value's arrays and objects nest more
/// than `deep` levels, or if a number is too large for a float.
#[cycle(value_in)]
pub(crate) fn value_in(
    alloc: Global,
    reader: &mut Reader<'_>,
    deep: usize,
) -> Result<Option<Value>, NoMemory>
    ensures given { IfOk result (λ o. IsGiven (value_at deep reader.old) o reader.new) }
    ensures shorter { IfOk result (λ o. IfSome o (λ _. length reader.new < length reader.old)) }
{
    let token = match reader.next() {
        Some(token) => token,
        None => return Ok(None),
    };
    if opens_array(&token) {
        if deep == 0 {
            return Ok(None);
        }
        return array_in(alloc, reader, deep - 1);
    }
    if opens_object(&token) {
        if deep == 0 {
            return Ok(None);
        }
        return object_in(alloc, reader, deep - 1);
    }
    scalar_in(alloc, token)
}

/// Returns whether a token is the opening bracket of an array.
pub(crate) fn opens_array(token: &Token<'_>) -> bool
    ensures { result ≡ is_array_start (token_of token.now) }
{
    matches!(token, Token::BeginArray)
}

/// Returns whether a token is the opening brace of an object.
fn opens_object(token: &Token<'_>) -> bool
    ensures { result ≡ is_object_start (token_of token.now) }
{
    matches!(token, Token::BeginObject)
}

/// Returns the value that a token alone denotes. Returns `None` if the token is a bracket, a brace, a key, not a token
/// of JSON, or a number that is too large for a float.
fn scalar_in(alloc: Global, token: Token<'_>) -> Result<Option<Value>, NoMemory>
    ensures { IfOk result (λ o. option_map view o ≡ scalar (token_of token.entry)) }
{
    match token {
        Token::String(text) => Ok(Some(Value::String(String::from_str(alloc, text)?))),
        Token::Number(text) => Ok(number_in(text).map(Value::Number)),
        Token::Bool(b) => Ok(Some(Value::Bool(b))),
        Token::Null => Ok(Some(Value::Null)),
        _ => Ok(None),
    }
}

/// Returns the array whose opening bracket was read; its members may nest `deep` levels.
#[cycle(value_in)]
fn array_in(alloc: Global, reader: &mut Reader<'_>, deep: usize) -> Result<Option<Value>, NoMemory>
    ensures given { IfOk result (λ o. IsGiven (array_at deep reader.old) o reader.new) }
    ensures shorter { IfOk result (λ o. IfSome o (λ _. length reader.new < length reader.old)) }
{
    let mut found = Vec::new(alloc);
    'items: while !reader.take_end_array() {
        let item = match value_in(alloc, reader, deep)? {
            Some(item) => item,
            None => return Ok(None),
        };
        found.push(item)?;
    }
    Ok(Some(Value::Array(found)))
}

/// Returns the object whose opening brace was read; its members may nest `deep` levels. The last value of a duplicate
/// key counts.
#[cycle(value_in)]
fn object_in(alloc: Global, reader: &mut Reader<'_>, deep: usize) -> Result<Option<Value>, NoMemory>
    ensures given { IfOk result (λ o. IsGiven (object_at deep reader.old) o reader.new) }
    ensures shorter { IfOk result (λ o. IfSome o (λ _. length reader.new < length reader.old)) }
{
    let mut found = Map::new(alloc);
    'members: loop {
        match reader.next_key() {
            Ok(Some(name)) => {
                let key = String::from_str(alloc, name)?;
                let member = match value_in(alloc, reader, deep)? {
                    Some(member) => member,
                    None => return Ok(None),
                };
                drop(found.insert(key, member)?);
            }
            Ok(None) => return Ok(Some(Value::Object(found))),
            Err(_) => return Ok(None),
        }
    }
}
