//! Errors of inputs, with their code and place, and their output line.
ghost use Rattle.std.specs.Prelude.{◌≡◌, IfOk};
ghost use Rattle.serde_json.specs.Data.{put as with_member};
ghost use Rattle.serde_json.specs.View.{view, members_view};
ghost use Rattle.answer_lines.specs.Refusals.{number_in};
ghost use Rattle.answer_lines.specs.Refusals.{no_memory, bad_shape, error_placed_at, number_or_null, parts_json};
ghost use Rattle.answer_lines.specs.Refusals.{refusal_json, error_line};

use crate::place::Place;
use json_words::write_json;
use plain::{NoMemory, pair_with};
use serde_json::{Map, Value, put};
use std::alloc::{AllocFailed, Global};
use thiserror::Error;

/// An error of the inputs of a command, or a failed allocation.
#[derive(Clone, Copy, PartialEq, Eq, Debug, Error)]
#[error("refused with code {code}")]
pub struct Refusal {
    /// The code: 1 for `NoMemory`, else that of the error (docs/codes.md).
    pub code: u8,
    /// The place of the error; `None` if the error has no place.
    pub place: Option<Place>,
    /// The code of the inner error, if the error has one (docs/codes.md).
    pub within: Option<u8>,
}

impl From<NoMemory> for Refusal {
    ghost from_gives = { λ _ e. e ≡ no_memory };

    fn from(_error: NoMemory) -> Refusal {
        Refusal {
            code: 1,
            place: None,
            within: None,
        }
    }
}

impl<T: Drop> From<AllocFailed<T>> for Refusal {
    ghost from_gives = { λ _ e. e ≡ no_memory };

    fn from(_error: AllocFailed<T>) -> Refusal {
        Refusal {
            code: 1,
            place: None,
            within: None,
        }
    }
}

impl Refusal {
    /// Returns the error of a failed allocation (1), which has no place.
    pub fn no_memory() -> Refusal
        ensures { result ≡ no_memory }
    {
        Refusal {
            code: 1,
            place: None,
            within: None,
        }
    }

    /// Returns the error (30) of a text that is not JSON of the demanded form, or of an entity whose uid an earlier one
    /// has. `index` is that of the rejected entity in its array, or `None` if the whole text is rejected.
    pub fn bad_shape(index: Option<usize>) -> Refusal
        ensures { result ≡ bad_shape index }
    {
        Refusal {
            code: 30,
            place: index.map(Place::Index),
            within: None,
        }
    }

    /// Returns this error with `index` as its place; an error with code 1 (out of memory) is unchanged.
    pub fn error_placed_at(self, index: usize) -> Refusal
        ensures { result ≡ error_placed_at index self }
    {
        if self.code == 1 {
            return self;
        }
        Refusal {
            code: self.code,
            place: Some(Place::Index(index)),
            within: self.within,
        }
    }

    /// Returns the number of this error's place, or `None` if it has no place.
    pub fn place_number(self) -> Option<usize>
        ensures { result ≡ number_in self.place }
    {
        match self.place {
            Some(place) => Some(place.number()),
            None => None,
        }
    }
}

/// Returns the number as JSON, or `null` for `None`.
fn number_or_null(number: Option<u64>) -> Value
    ensures { view result ≡ number_or_null number }
{
    match number {
        Some(number) => Value::from(number),
        None => Value::Null,
    }
}

/// Returns `members` with the value `value` at the key `key`.
fn with_value(
    alloc: Global,
    members: Map<String, Value>,
    key: &str,
    value: Value,
) -> Result<Map<String, Value>, NoMemory>
    ensures { IfOk result
        (λ m. members_view m.entries ≡ with_member key.now (view value) (members_view members.entries)) }
{
    let mut members = members;
    let done = put(&mut members, alloc, key, value);
    let (members, _done) = pair_with(members, done)?;
    Ok(members)
}

/// Returns the JSON of an error with these parts.
fn parts_value(
    alloc: Global,
    code: u64,
    place: Option<u64>,
    within: Option<u64>,
) -> Result<Value, NoMemory>
    ensures { IfOk result (λ v. view v ≡ parts_json code place within) }
{
    let members = with_value(alloc, Map::new(alloc), "code", number_or_null(Some(code)))?;
    let members = with_value(alloc, members, "place", number_or_null(place))?;
    let members = with_value(alloc, members, "within", number_or_null(within))?;
    let members = with_value(alloc, Map::new(alloc), "error", Value::Object(members))?;
    Ok(Value::Object(members))
}

/// Returns the JSON of an error.
fn refusal_value(alloc: Global, refusal: Refusal) -> Result<Value, NoMemory>
    ensures { IfOk result (λ v. view v ≡ refusal_json refusal) }
{
    let place = refusal.place_number().map(|place| place as u64);
    let within = refusal.within.map(u64::from);
    parts_value(alloc, u64::from(refusal.code), place, within)
}

/// Returns the line of an error, without its line end, such as `{"error":{"code":30,"place":0,"within":null}}`. The
/// only error is `NoMemory`.
pub fn error_line(alloc: Global, refusal: Refusal) -> Result<Vec<u8>, NoMemory>
    ensures { IfOk result (λ b. b.items ≡ error_line refusal) }
{
    let value = refusal_value(alloc, refusal)?;
    write_json(alloc, &value)
}
