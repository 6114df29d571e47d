//! What readers and writers of JSON share: parsing, also in reused memory; the members of an array, one by one; the
//! keys of an object; and the compact text.
//!
//! Contracts of readers in other crates describe reading as a function that returns a value or the first error. These
//! contracts use the definitions `ReadsAs`, `each`, `demand` and `or_fault` of `specs/`; `proofs/` has lemmas for the
//! loops of these readers.
#![tactic(auto)]

ghost use Rattle.std.specs.Prelude.{◌≡◌, ◌≤◌, Some, false, option_map, IfOk, IfSome, map, string_bytes};
ghost use Rattle.std.specs.List.{list_any, list_all};
ghost use Rattle.std.specs.Str.{bytes_eq};
ghost use Rattle.std.specs.BTreeMap.{keys};
ghost use Rattle.serde_json.specs.Data.{depth};
ghost use Rattle.serde_json.specs.Read.{max_depth};
ghost use Rattle.serde_json.specs.View.{view};
ghost use Rattle.serde_json.specs.Written.{has_float, compact_text};
ghost use Rattle.json_words.specs.Json.{json_of, text_at};
ghost use Rattle.json_words.specs.Keys.{has_only};

mod array_members;
mod laws;
mod numbers;
mod reading;
mod with_scratch;

pub use array_members::{ArrayMembers, Member, members_of};
pub use json::Scratch;
pub use laws::{compact_texts_read_back, json_keys_ascend};
use plain::NoMemory;
use serde_json::{Map, Value};
use std::alloc::Global;
pub use with_scratch::read_json_by;

/// Parses JSON. Returns `None` if the bytes are not UTF-8 or not JSON, if arrays and objects nest deeper than 127, if
/// an escape has half of a surrogate pair, or if a number is too large for a double.
///
/// The last value of a duplicate key counts. The only error is `NoMemory`.
pub fn read_json(alloc: Global, bytes: &[u8]) -> Result<Option<Value>, NoMemory>
    ensures value { IfOk result (λ o. option_map view o ≡ json_of bytes.now) }
    ensures nests { IfOk result (λ o. IfSome o (λ v. depth (view v) ≤ max_depth)) }
{
    match Value::from_slice(alloc, bytes) {
        Ok(value) => Ok(Some(value)),
        Err(e) => {
            if e.is_memory() {
                return Err(NoMemory);
            }
            Ok(None)
        }
    }
}

/// Returns the compact text of a value: no whitespace between tokens, and the keys of each object ascending by bytes.
///
/// The text of a value that nests at most 127 deep parses as that value. The contract specifies nothing else of the
/// text of a value with a float. The only error is `NoMemory`.
pub fn write_json(alloc: Global, value: &Value) -> Result<Vec<u8>, NoMemory>
    ensures text { IfOk result (λ b. has_float (view value.now) ≡ false → b.items ≡ compact_text (view value.now)) }
    ensures reads_back { IfOk result
        (λ b. depth (view value.now) ≤ max_depth → json_of b.items ≡ Some (view value.now)) }
{
    value.to_vec(alloc)
}

/// Returns the string at a key of an object, or `None` if the value is not an object, or has no string at this key.
pub fn text_at<'v>(value: &'v Value, key: &str) -> Option<&'v str>
    ensures { option_map (λ s. s.now) result ≡ text_at key.now (view value.now) }
{
    match value.get(key) {
        Some(found) => found.as_str(),
        None => None,
    }
}

/// Returns whether a value is an object with no other keys than `allowed`.
#[tactic(auto, using(crate::proofs::KeysLemmas::keys_within_view))]
pub fn only_keys(value: &Value, allowed: &[&str]) -> bool
    ensures { result ≡ has_only (map (λ k. k.now) allowed.now) (view value.now) }
{
    match value.as_object() {
        Some(object) => all_among(object, allowed),
        None => false,
    }
}

/// Returns whether each key of an object is one of `allowed`.
fn all_among(object: &Map<String, Value>, allowed: &[&str]) -> bool
    ensures { result ≡ list_all (λ k. list_any (λ a. bytes_eq a.now (string_bytes k)) allowed.now) (keys object.now) }
{
    object.keys().all(|key| allowed.contains(&key.as_str()))
}
