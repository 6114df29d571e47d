//! Reading of optional keys, and of required strings.
ghost use Rattle.std.specs.Prelude.{◌≡◌, option_map};
ghost use Rattle.serde_json.specs.View.{view};
ghost use Rattle.json_words.specs.ReadsAs.{AlwaysReadsAs};
ghost use Rattle.schema_types.specs.Optional.{optional as optional_of, required_text as text_of, truth_or as truth_of};
ghost use Rattle.schema_types.specs.Optional.{closed_in};

use crate::fault::SchemaFault;
use serde_json::Value;

/// Returns the value at a key; `None` if it is absent or null.
pub fn optional<'v>(value: &'v Value, key: &str) -> Option<&'v Value>
    ensures { option_map (λ v. view v.now) result ≡ optional_of key.now (view value.now) }
{
    match value.get(key) {
        Some(Value::Null) => None,
        Some(found) => Some(found),
        None => None,
    }
}

/// Returns the string at a key, or `BadShape` (21) if there is no string at the key.
pub fn required_text<'v>(value: &'v Value, key: &str) -> Result<&'v str, SchemaFault>
    ensures { AlwaysReadsAs (λ s. s.now) result (text_of key.now (view value.now)) }
{
    match value.get(key) {
        Some(found) => match found.as_str() {
            Some(text) => Ok(text),
            None => Err(SchemaFault::BadShape),
        },
        None => Err(SchemaFault::BadShape),
    }
}

/// Returns the boolean in `value`, `missing` if `value` is `None`, or `BadShape` (21) if the value is not a boolean.
pub(crate) fn truth_or(missing: bool, value: Option<&Value>) -> Result<bool, SchemaFault>
    ensures { AlwaysReadsAs (λ b. b) result (truth_of missing (option_map (λ v. view v.now) value.entry)) }
{
    match value {
        None => Ok(missing),
        Some(found) => match found.as_bool() {
            Some(truth) => Ok(truth),
            None => Err(SchemaFault::BadShape),
        },
    }
}

/// Checks that a record allows no further attributes: `additional`, its value at `additionalAttributes`, is `None` or
/// `false`. The error is `BadShape` (21).
pub(crate) fn demand_closed(additional: Option<&Value>) -> Result<(), SchemaFault>
    ensures { AlwaysReadsAs (λ u. tt) result (closed_in (option_map (λ v. view v.now) additional.entry)) }
{
    let more = truth_or(false, additional)?;
    if more {
        return Err(SchemaFault::BadShape);
    }
    Ok(())
}
