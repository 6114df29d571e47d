//! The details of an error, without its cause.
ghost use Rattle.std.specs.Prelude.{◌≡◌, ◌++◌, OnOk, map, string_bytes};
ghost use Rattle.type_checker.specs.schema.Views.{schema_view, environment_view};
ghost use Rattle.type_checker.specs.FromSchemas.{attributes_of, typing_environment_of};
ghost use Rattle.type_checker.specs.Views.{static_view};
ghost use Rattle.fault_places.specs.Words.{field_names, fields_of, which_words};
ghost use Rattle.fault_places.specs.Words.{declared_words, name_detail, typing_detail};

use crate::attributes::is_declared;
use crate::blaming::TypeBlame;
use crate::causes::typing_cause;
use crate::wording::{push_environment, push_list, push_two, type_word};
use plain::NoMemory;
use type_checker::{Environment, Leaf, Schema, StaticType, attributes_of};
use validator::TypeFault;

// The words for a type without attributes.
const NO_ATTRIBUTES: &str = ", which has no attributes";

// The words before the attributes of a type.
const ATTRIBUTES: &str = ", which has ";

/// Appends which attributes the type `owner` has. Only record types and entity types have any.
fn push_attributes(
    out: &mut String,
    schema: &Schema,
    owner: &StaticType<'_>,
) -> Result<(), NoMemory>
    ensures { OnOk result (string_bytes out.new ≡ string_bytes out.old ++ which_words
        (field_names (fields_of (attributes_of (schema_view schema.now)) (static_view owner.now)))) }
{
    match owner {
        StaticType::Leaf(leaf) => match leaf {
            Leaf::Entity(name) => {
                push_list(out, NO_ATTRIBUTES, ATTRIBUTES, attributes_of(schema, *name))
            }
            _ => out.push_str(NO_ATTRIBUTES),
        },
        StaticType::DeclaredRecord(fields) => push_list(out, NO_ATTRIBUTES, ATTRIBUTES, *fields),
        StaticType::Record(fields) => {
            push_list(out, NO_ATTRIBUTES, ATTRIBUTES, fields.as_slice())
        }
        _ => out.push_str(NO_ATTRIBUTES),
    }
}

/// Appends whether the first of `types` declares the attribute `name`, and if not, which attributes this type has;
/// nothing without types. Of a declared attribute, appends that it is optional: only an optional attribute may be
/// missing.
fn push_declared<'a>(
    out: &mut String,
    schema: &'a Schema,
    environment: &'a Environment,
    types: &[StaticType<'a>],
    name: &str,
) -> Result<(), NoMemory>
    ensures { OnOk result (string_bytes out.new ≡ string_bytes out.old
        ++ declared_words (typing_environment_of (schema_view schema.entry.now)
        (environment_view environment.entry.now)) name.now (map static_view types.now)) }
{
    match types.first() {
        Some(owner) => {
            let declared = is_declared(schema, environment, owner, name)?;
            if declared {
                push_two(out, ": optional in ", type_word(owner))
            } else {
                push_two(out, ": not declared in ", type_word(owner))?;
                push_attributes(out, schema, owner)
            }
        }
        None => Ok(()),
    }
}

/// Appends the environment of a typing error, and the details of the error there: for 44 (an attribute that is
/// undeclared or may be missing), whether the attribute is declared, and if not, which attributes are; for any other
/// error, the types that the form's demand is about.
pub(crate) fn push_detail<'a>(
    out: &mut String,
    schema: &'a Schema,
    blame: &TypeBlame<'a>,
) -> Result<(), NoMemory>
    ensures { OnOk result (string_bytes out.new ≡ string_bytes out.old
        ++ typing_detail (schema_view schema.entry.now) blame.now) }
{
    match schema.environments().get(blame.environment) {
        Some(environment) => {
            push_environment(out, environment)?;
            let types = blame.place.types.as_slice();
            match blame.fault {
                TypeFault::AttributeMayBeMissing => {
                    let name = typing_cause(blame.fault, blame.place.form);
                    push_declared(out, schema, environment, types, name)
                }
                _ => push_list(out, "", ": ", types),
            }
        }
        None => Ok(()),
    }
}

/// Appends the details of the error of an undeclared name: for an undeclared action (41) the actions that the schema
/// declares; nothing for an undeclared entity type (40).
pub(crate) fn push_name_detail(
    out: &mut String,
    schema: &Schema,
    fault: TypeFault,
) -> Result<(), NoMemory>
    ensures { OnOk result (string_bytes out.new ≡ string_bytes out.old ++ name_detail (schema_view schema.now) fault) }
{
    match fault {
        TypeFault::UnknownAction => {
            push_list(out, "no action is declared", "declared: ", schema.actions())
        }
        _ => Ok(()),
    }
}
