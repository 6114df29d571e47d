//! Parsing of JSON values that reuses memory from text to text.
//!
//! `serde_json::Value::from_slice` makes a [`Scratch`] for each text, and zeroes its 16 KiB. A caller that parses many
//! texts keeps one [`Scratch`], and passes it to [`read_json_by`].
ghost use Rattle.std.specs.Prelude.{◌≡◌, ◌≤◌, option_map, IfOk, IfSome};
ghost use Rattle.serde_json.specs.Data.{depth};
ghost use Rattle.serde_json.specs.Read.{max_depth, read};
ghost use Rattle.serde_json.specs.View.{view};
ghost use Rattle.json_words.specs.Json.{json_of};

use crate::reading::value_in;
use json::{Reader, Scratch};
use plain::NoMemory;
use serde_json::Value;
use std::alloc::Global;

/// The greatest depth to which arrays and objects may nest, as in `serde_json`.
pub(crate) const MOST_DEPTH: usize = 127;

/// Parses JSON. Returns `None` if the bytes are not UTF-8 or not JSON, if arrays and objects nest deeper than 127, if
/// an escape has half of a surrogate pair, or if a number is too large for a double.
///
/// The last value of a duplicate key counts. A scratch that is shorter than `bytes` grows to their length; its earlier
/// content does not matter. The only error is `NoMemory`.
pub fn read_json_by(
    scratch: &mut Scratch,
    alloc: Global,
    bytes: &[u8],
) -> Result<Option<Value>, NoMemory>
    ensures value { IfOk result (λ o. option_map view o ≡ json_of bytes.now) }
    ensures nests { IfOk result (λ o. IfSome o (λ v. depth (view v) ≤ max_depth)) }
{
    match str::from_utf8(bytes) {
        Ok(text) => read_text(scratch, alloc, text),
        Err(_) => Ok(None),
    }
}

/// Returns the JSON value of a text, or `None` in the cases of [`read_json_by`].
fn read_text(scratch: &mut Scratch, alloc: Global, text: &str) -> Result<Option<Value>, NoMemory>
    ensures value { IfOk result (λ o. option_map view o ≡ read text.now) }
    ensures nests { IfOk result (λ o. IfSome o (λ v. depth (view v) ≤ max_depth)) }
{
    let mut reader = Reader::new(text, scratch)?;
    let value = value_in(alloc, &mut reader, MOST_DEPTH)?;
    match reader.next() {
        Some(_) => Ok(None),
        None => Ok(value),
    }
}
