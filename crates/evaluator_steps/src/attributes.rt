//! The value of an entity's attribute.
ghost use Rattle.std.specs.Prelude.{MatchResult, Ok, Err, option_map};
ghost use Rattle.evaluator_steps.specs.Attributes.{AttributeGives};

use values::{Record, Value};

/// Returns the value of an attribute, given `stored`: the attributes of its entity, or `None` if the entity is not
/// stored.
///
/// Does not allocate. Source: Cedar reference guide, "Operators and functions".
///
/// # Errors
///
/// - `unstored`: the entity is not stored. It is not treated as an entity without attributes.
/// - `missing`: the entity is stored and has no attribute of this name.
pub fn attribute_in<'a, E: Copy>(
    stored: Option<&'a Record>,
    name: &str,
    unstored: E,
    missing: E,
) -> Result<&'a Value, E>
    ensures { let gives = AttributeGives unstored missing (option_map (λ fields. fields.now) stored.entry) name.now in
        MatchResult result (λ value. gives (Ok value.now)) (λ error. gives (Err error)) }
{
    match stored {
        None => Err(unstored),
        Some(fields) => match fields.field(name) {
            None => Err(missing),
            Some(value) => Ok(value),
        },
    }
}
