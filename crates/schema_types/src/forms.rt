//! The forms of a type's JSON.
ghost use Rattle.std.specs.Prelude.{◌≡◌};
ghost use Rattle.serde_json.specs.View.{view};
ghost use Rattle.json_words.specs.Keys.{has_only};
ghost use Rattle.schema_types.specs.Forms.{form_named as form_of, keys_of};

use json_words::only_keys;
use serde_json::Value;

/// The form of a type's JSON, by the word at its key `type`.
#[derive(Clone, Copy)]
pub enum Form {
    /// The word `String`.
    Text,
    /// The word `Long`.
    Long,
    /// The word `Boolean` or `Bool`.
    Boolean,
    /// The word `Set`.
    Set,
    /// The word `Record`.
    Record,
    /// The word `Entity`.
    Entity,
    /// The word `Extension`.
    Extension,
    /// The word `EntityOrCommon`.
    EntityOrCommon,
    /// Any other word: the name of a common type.
    Common,
}

/// Returns the form that a word selects. A word that selects no other form selects [`Form::Common`], as the name of a
/// common type.
#[tactic(auto, unfolding(crate::specs::Forms::form_named))]
pub fn form_named(word: &str) -> Form
    ensures { result ≡ form_of word.now }
{
    if word == "String" {
        Form::Text
    } else if word == "Long" {
        Form::Long
    } else if word == "Boolean" {
        Form::Boolean
    } else if word == "Bool" {
        Form::Boolean
    } else if word == "Set" {
        Form::Set
    } else if word == "Record" {
        Form::Record
    } else if word == "Entity" {
        Form::Entity
    } else if word == "Extension" {
        Form::Extension
    } else if word == "EntityOrCommon" {
        Form::EntityOrCommon
    } else {
        Form::Common
    }
}

/// Returns whether a value of the form `form` has only keys that this form allows. Only an attribute may have
/// `required`.
pub(crate) fn has_keys_of(value: &Value, is_attribute: bool, form: Form) -> bool
    ensures { result ≡ has_only (keys_of is_attribute form) (view value.now) }
{
    if is_attribute {
        match form {
            Form::Text | Form::Long | Form::Boolean | Form::Common => {
                only_keys(value, &["type", "annotations", "required"])
            }
            Form::Set => only_keys(value, &["type", "annotations", "required", "element"]),
            Form::Record => {
                only_keys(
                    value,
                    &[
                        "type",
                        "annotations",
                        "required",
                        "attributes",
                        "additionalAttributes",
                    ],
                )
            }
            Form::Entity | Form::Extension | Form::EntityOrCommon => {
                only_keys(value, &["type", "annotations", "required", "name"])
            }
        }
    } else {
        match form {
            Form::Text | Form::Long | Form::Boolean | Form::Common => only_keys(
                value,
                &["type", "annotations"],
            ),
            Form::Set => only_keys(value, &["type", "annotations", "element"]),
            Form::Record => only_keys(
                value,
                &["type", "annotations", "attributes", "additionalAttributes"],
            ),
            Form::Entity | Form::Extension | Form::EntityOrCommon => {
                only_keys(value, &["type", "annotations", "name"])
            }
        }
    }
}
