//! The types of `e.f` and `e has f`, for the fields of records and the attributes of entities.
ghost use Rattle.std.specs.Prelude.{◌≡◌, false, IsTrue, if◌then◌else◌};
ghost use Rattle.typing.specs.Types.{field_declared_at, true_type};
ghost use Rattle.typing.specs.Rows.{field_type_of, has_type, access_type, record_has, entity_has};
ghost use Rattle.schema_types.specs.CedarViews.{cedar_fields_view};
ghost use Rattle.type_checker.specs.FromSchemas.{static_fields};
ghost use Rattle.type_checker.specs.Views.{boolean_view, static_view, type_sharing, typing_environment, Answers};
ghost use Rattle.type_checker.specs.Views.{TakesNoMemory, TakesMemoryOnly};
ghost use Rattle.type_checker.specs.inner.Parts.{built_view, fields_view, has_shared_field, found_shared, found_view};

use crate::environment::TypingEnvironment;
use crate::parts::{Fields, Part, TypeKind};
use crate::static_type::{BooleanType, Leaf, StaticType};
use plain::Text;
use schema_types::CedarType;
use typing::TypeFault;

/// Returns the declaration of `key` in a record type that an expression built, or `None`, by a linear search.
fn found_built<'r, 'a>(
    fields: &'r [(&'a str, StaticType<'a>, bool)],
    key: &str,
) -> Option<(Part<'r, 'a>, bool)>
    ensures declared { found_view result ≡ field_declared_at key.now (built_view fields.now) }
    ensures shared { found_shared result ≡ has_shared_field key.now fields.now }
{
    for field in fields {
        if key == field.0 {
            return Some((Part::Built(&field.1), field.2));
        }
    }
    None
}

/// Returns the declaration of `key` in a declared record type, or `None`, by a linear search.
fn found_declared<'r, 'a>(
    fields: &'a [(Text, CedarType, bool)],
    key: &str,
) -> Option<(Part<'r, 'a>, bool)>
    ensures declared { found_view result ≡ field_declared_at key.now (static_fields (cedar_fields_view fields.now)) }
    ensures lent { found_shared result ≡ false }
{
    for field in fields {
        if key == field.0.as_str() {
            return Some((Part::Declared(&field.1), field.2));
        }
    }
    None
}

/// Returns the declaration of `key` in a record type, or `None`, by a linear search.
fn found<'r, 'a>(fields: Fields<'r, 'a>, key: &str) -> Option<(Part<'r, 'a>, bool)>
    ensures { found_view result ≡ field_declared_at key.now (fields_view fields.entry) }
{
    match fields {
        Fields::Built(fields) => found_built(fields, key),
        Fields::Declared(fields) => found_declared(fields, key),
    }
}

/// Returns the type of the field with the declaration `declared` if the field is required or `is_known` is true; else,
/// and for `None`, `AttributeMayBeMissing`.
fn access<'a>(
    is_known: bool,
    declared: Option<(Part<'_, 'a>, bool)>,
) -> Result<StaticType<'a>, TypeFault>
    ensures row { Answers result (access_type is_known (found_view declared.entry)) }
    ensures memory { TakesMemoryOnly (IsTrue (found_shared declared.entry)) result }
{
    match declared {
        Some((part, required)) => {
            if required || is_known {
                Ok(part.taken()?)
            } else {
                Err(TypeFault::AttributeMayBeMissing)
            }
        }
        None => Err(TypeFault::AttributeMayBeMissing),
    }
}

/// Returns the type of `e has f` for a record `e`, where `is_known` is whether there is a capability for `e.f`, and
/// `declared` the declaration of `f`, if there is one.
fn record_has(is_known: bool, declared: Option<(Part<'_, '_>, bool)>) -> BooleanType
    ensures { boolean_view result ≡ if is_known then true_type else record_has (found_view declared.entry) }
{
    if is_known {
        return BooleanType::True;
    }
    match declared {
        Some((_, true)) => BooleanType::True,
        Some((_, false)) => BooleanType::Either,
        None => BooleanType::False,
    }
}

/// Returns the type of `e has f` for an entity `e`, where `is_known` is whether there is a capability for `e.f`, and
/// `declared` the declaration of `f`, if there is one. Without a capability the type is not True even for a required
/// attribute, since the entity may not be stored.
fn entity_has(is_known: bool, declared: Option<(Part<'_, '_>, bool)>) -> BooleanType
    ensures { boolean_view result ≡ if is_known then true_type else entity_has (found_view declared.entry) }
{
    if is_known {
        return BooleanType::True;
    }
    match declared {
        Some(_) => BooleanType::Either,
        None => BooleanType::False,
    }
}

/// Returns the type of `e.f`, where `key` is `f`, `whole` is the type of `e`, and `is_known` whether there is a
/// capability for `e.f`.
///
/// For an entity, looks up its type and the attribute, each in logarithmic time. For a record, takes time linear in the
/// number of fields. Does not allocate.
///
/// # Errors
///
/// - `Unexpected`: `e` is neither a record nor an entity.
/// - `AttributeMayBeMissing`: the field is not declared, or is optional without a capability.
/// - `NoMemory`: an expression built the field's type, and the count of references to it would overflow.
pub fn field_type<'a>(
    env: TypingEnvironment<'a>,
    is_known: bool,
    key: &str,
    whole: &StaticType<'a>,
) -> Result<StaticType<'a>, TypeFault>
    ensures row { Answers result
        (field_type_of (typing_environment env.entry) is_known key.now (static_view whole.now)) }
    ensures memory { TakesMemoryOnly (IsTrue ((type_sharing whole.now).at key.now)) result }
{
    match whole {
        StaticType::Leaf(Leaf::Entity(name)) => access(is_known, env.attribute(*name, key)),
        StaticType::DeclaredRecord(fields) => access(is_known, found_declared(*fields, key)),
        StaticType::Record(fields) => access(is_known, found_built(fields.as_slice(), key)),
        StaticType::Leaf(Leaf::Boolean(_) | Leaf::Long | Leaf::Text | Leaf::Decimal | Leaf::Ipaddr)
        | StaticType::DeclaredSet(_)
        | StaticType::Set(_) => Err(TypeFault::Unexpected),
    }
}

/// Returns the type of `e has f`, where `key` is `f`, `whole` is the type of `e`, and `is_known` whether there is a
/// capability for `e.f`.
///
/// For an entity, looks up its type and the attribute, each in logarithmic time. For a record, takes time linear in the
/// number of fields. Does not allocate.
///
/// # Errors
///
/// - `Unexpected`: `e` is neither a record nor an entity.
pub fn has_type<'a>(
    env: TypingEnvironment<'a>,
    is_known: bool,
    key: &str,
    whole: &StaticType<'a>,
) -> Result<StaticType<'a>, TypeFault>
    ensures row { Answers result
        (has_type (typing_environment env.entry) is_known key.now (static_view whole.now)) }
    ensures memory { TakesNoMemory result }
{
    let part = Part::Built(whole);
    match part.kind() {
        TypeKind::Record(fields) => Ok(StaticType::boolean(record_has(
            is_known,
            found(fields, key),
        ))),
        TypeKind::Leaf(Leaf::Entity(name)) => Ok(StaticType::boolean(entity_has(
            is_known,
            env.attribute(name, key),
        ))),
        _ => Err(TypeFault::Unexpected),
    }
}
