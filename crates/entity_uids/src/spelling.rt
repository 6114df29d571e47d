//! A fast path for the usual form of a uid: an object with exactly two keys, whose order is known.
ghost use Rattle.std.specs.Prelude.{◌≡◌, Some, IfSome, string_bytes};
ghost use Rattle.serde_json.specs.Data.{string, member, no_members};
ghost use Rattle.serde_json.specs.Find.{as_object};
ghost use Rattle.serde_json.specs.View.{view};

use serde_json::Value;

/// Returns the string of a member, if the member has this key and its value is a string.
fn text_under<'v>(member: (&'v String, &'v Value), key: &str) -> Option<&'v str>
    ensures { IfSome result
        (λ s. (string_bytes member.entry.0.now ≡ key.now) × (view member.entry.1.now ≡ string s.now)) }
{
    if member.0.as_str() != key {
        return None;
    }
    member.1.as_str()
}

/// Returns the strings at the keys `lesser` and `greater` of an object that has exactly these keys, each with a string
/// as its value; `None` for another value. `lesser` must be less than `greater`, else the result is `None`. Visits each
/// key once.
pub(crate) fn two_texts<'v>(
    value: &'v Value,
    lesser: &str,
    greater: &str,
) -> Option<(&'v str, &'v str)>
    ensures { IfSome result (λ p. as_object (view value.now)
        ≡ Some (member lesser.now (string p.0.now) (member greater.now (string p.1.now) no_members))) }
{
    let object = value.as_object()?;
    if object.len() != 2 {
        return None;
    }
    let first = text_under(object.first_key_value()?, lesser)?;
    let last = text_under(object.last_key_value()?, greater)?;
    Some((first, last))
}
