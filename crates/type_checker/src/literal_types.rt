//! The types of literals, and of set and record literals, given the types of their members and fields.
ghost use Rattle.std.specs.Prelude.{◌≡◌, map, option_map, IfOk};
ghost use Rattle.typing.specs.Types.{truth_type, common, common_of, record_type};
ghost use Rattle.typing.specs.Types.{put_each, put_required, no_field_types};
ghost use Rattle.typing.specs.Rows.{literal_type, set_of_common, set_literal_type};
ghost use Rattle.type_checker.specs.Views.{boolean_view, static_view, Answers};
ghost use Rattle.type_checker.specs.inner.Parts.{built_view, map_fields};

use crate::common_types::common;
use crate::static_type::{BooleanType, Leaf, StaticType};
use grammar_core::{Expr, Literal, Named};
use plain::{Items, NoMemory, Shared};
use std::alloc::Global;
use std::collections::BTreeMap;
use typing::TypeFault;

/// Returns the type of an expression that is known to give `truth`.
pub(crate) fn truth_type(truth: bool) -> BooleanType
    ensures { boolean_view result ≡ truth_type truth }
{
    if truth {
        BooleanType::True
    } else {
        BooleanType::False
    }
}

/// Returns the type of a literal. Does not allocate.
pub fn literal_type<'a>(literal: &'a Literal) -> StaticType<'a>
    ensures { static_view result ≡ literal_type literal.now }
{
    match literal {
        Literal::Boolean(truth) => StaticType::boolean(truth_type(*truth)),
        Literal::Long(_) => StaticType::Leaf(Leaf::Long),
        Literal::Text(_) => StaticType::Leaf(Leaf::Text),
        Literal::Entity(uid) => StaticType::Leaf(Leaf::Entity(&uid.type_name)),
    }
}

/// Returns the common type of `joined` (the common type so far) and the type `ty`, or `None` if they have none.
fn joined_with<'a>(
    alloc: Global,
    joined: StaticType<'a>,
    ty: &StaticType<'a>,
) -> Result<Option<StaticType<'a>>, NoMemory>
    ensures { IfOk result (λ o. option_map (λ t. static_view t) o
        ≡ common (static_view joined.entry) (static_view ty.now)) }
{
    let wider = common(alloc, &joined, ty);
    drop(joined);
    wider
}

/// Returns the type of a set literal whose members have the type `first` and the types `rest`; `NoCommonType` if these
/// have no common type.
fn set_type_of<'a>(
    alloc: Global,
    first: &StaticType<'a>,
    rest: &[StaticType<'a>],
) -> Result<StaticType<'a>, TypeFault>
    ensures { Answers result
        (set_of_common (common_of (static_view first.now) (map (λ t. static_view t) rest.now))) }
{
    let mut joined = first.copy()?;
    for ty in rest {
        match joined_with(alloc, joined, ty)? {
            Some(wider) => joined = wider,
            None => return Err(TypeFault::NoCommonType),
        }
    }
    Ok(StaticType::Set(Shared::new(alloc, joined)?))
}

/// Returns the type of a set literal whose members have these types.
///
/// # Errors
///
/// - `EmptySet`: there are no members.
/// - `NoCommonType`: the types have no common type.
/// - `NoMemory`: an allocation failed, or the count of references to a shared type would overflow; possible at any
///   point.
pub fn set_literal_type<'a>(
    alloc: Global,
    members: Vec<StaticType<'a>>,
) -> Result<StaticType<'a>, TypeFault>
    ensures { Answers result (set_literal_type (map (λ t. static_view t) members.entry.items)) }
{
    match members.as_slice() {
        [] => Err(TypeFault::EmptySet),
        [first, rest @ ..] => set_type_of(alloc, first, rest),
    }
}

/// Returns `map` with the type `ty` at `key`, in place of the type that is there, if there is one.
fn put_field<'a>(
    map: BTreeMap<&'a str, StaticType<'a>>,
    key: &'a str,
    ty: StaticType<'a>,
) -> Result<BTreeMap<&'a str, StaticType<'a>>, NoMemory>
    ensures { IfOk result (λ m. map_fields m.entries
        ≡ put_required key.now (static_view ty.entry) (map_fields map.entry.entries)) }
{
    let mut map = map;
    drop(map.insert(key, ty)?);
    Ok(map)
}

/// Returns the entries of `map` as the fields of a record type, all of them required.
fn listed_fields<'a>(
    alloc: Global,
    map: BTreeMap<&'a str, StaticType<'a>>,
) -> Result<Vec<(&'a str, StaticType<'a>, bool)>, NoMemory>
    ensures { IfOk result (λ fs. built_view fs.items ≡ map_fields map.entry.entries) }
{
    let mut fields = Vec::new(alloc);
    for (key, ty) in map {
        fields.push((key, ty, true))?;
    }
    Ok(fields)
}

/// Returns the map from the names of the fields to their types; a repeated name has the type of its last field.
fn typed_fields<'a>(
    alloc: Global,
    fields: &'a [Named<Expr>],
    types: Vec<StaticType<'a>>,
) -> Result<BTreeMap<&'a str, StaticType<'a>>, NoMemory>
    ensures { IfOk result (λ m. map_fields m.entries
        ≡ put_each (map (λ f. f.name) fields.now) (map (λ t. static_view t) types.entry.items) no_field_types) }
{
    let mut map = BTreeMap::new(alloc);
    let mut at: usize = 0;
    for ty in types {
        match fields.get(at) {
            Some(field) => {
                map = put_field(map, field.name.as_str(), ty)?;
                at += 1;
            }
            None => {
                drop(ty);
                return Ok(map);
            }
        }
    }
    Ok(map)
}

/// Returns the type of a record literal whose fields have these types, in the order in which they are written. A
/// repeated name has the type of its last field.
///
/// # Errors
///
/// - `NoMemory`: an allocation failed.
pub fn record_literal_type<'a>(
    alloc: Global,
    fields: &'a [Named<Expr>],
    types: Vec<StaticType<'a>>,
) -> Result<StaticType<'a>, NoMemory>
    ensures { IfOk result (λ t. static_view t
        ≡ record_type (put_each (map (λ f. f.name) fields.now) (map (λ t. static_view t) types.entry.items)
        no_field_types)) }
{
    let fields = listed_fields(alloc, typed_fields(alloc, fields, types)?)?;
    Ok(StaticType::Record(Shared::new(alloc, Items::from_vec(fields))?))
}
