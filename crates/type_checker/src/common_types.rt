//! The common type of two types.
ghost use Rattle.std.specs.Prelude.{◌≡◌, Some, option_map, IfOk, IfErr, IfSome};
ghost use Rattle.typing.specs.Types.{set_type, record_type, common, common_fields};
ghost use Rattle.type_checker.specs.Views.{boolean_view, leaf_view, static_view, MayTakeMemory};
ghost use Rattle.type_checker.specs.inner.Parts.{part_view, built_view, fields_view};

use crate::parts::{Fields, Part, TypeKind};
use crate::same_types::same_fields;
use crate::static_type::{BooleanType, Leaf, StaticType};
use crate::type_joins::{Join, join_of, paired};
use plain::{Items, NoMemory, Shared};
use std::alloc::Global;

/// Returns the common type of two types, or `None` if they have none.
///
/// The common type of equal types is that type; of different boolean types, Bool; of two set types, the type of sets of
/// their members' common type; of two record types with equal keys and requirements, the record of their fields' common
/// types. Takes time linear in the nodes of the smaller type. Allocates only if the result differs from the left type.
///
/// # Errors
///
/// - `NoMemory`: an allocation failed, or the count of references to a shared left type would overflow.
pub fn common<'a>(
    alloc: Global,
    left: &StaticType<'a>,
    right: &StaticType<'a>,
) -> Result<Option<StaticType<'a>>, NoMemory>
    ensures is { IfOk result (λ o. option_map (λ t. static_view t) o
        ≡ common (static_view left.now) (static_view right.now)) }
    ensures memory { IfErr result (λ _.
        MayTakeMemory left.now (common (static_view left.now) (static_view right.now))) }
{
    match join_of(Part::Built(left), Part::Built(right)) {
        Join::Apart => Ok(None),
        Join::Left => Ok(Some(left.copy()?)),
        Join::Wider => common_of(alloc, Part::Built(left), Part::Built(right)),
    }
}

/// Returns the common type of two boolean types.
fn common_boolean(left: BooleanType, right: BooleanType) -> BooleanType
    ensures { common (boolean_view left) (boolean_view right) ≡ Some (boolean_view result) }
{
    match left {
        BooleanType::True => match right {
            BooleanType::True => BooleanType::True,
            BooleanType::False | BooleanType::Either => BooleanType::Either,
        },
        BooleanType::False => match right {
            BooleanType::False => BooleanType::False,
            BooleanType::True | BooleanType::Either => BooleanType::Either,
        },
        BooleanType::Either => BooleanType::Either,
    }
}

/// Returns the common type of two types without parts, or `None` if they have none.
fn common_leaf<'a>(left: Leaf<'a>, right: Leaf<'a>) -> Option<Leaf<'a>>
    ensures { option_map leaf_view result ≡ common (leaf_view left.entry) (leaf_view right.entry) }
{
    match (left, right) {
        (Leaf::Boolean(a), Leaf::Boolean(b)) => Some(Leaf::Boolean(common_boolean(a, b))),
        (Leaf::Long, Leaf::Long) => Some(Leaf::Long),
        (Leaf::Text, Leaf::Text) => Some(Leaf::Text),
        (Leaf::Entity(a), Leaf::Entity(b)) => {
            if a.as_str() == b.as_str() {
                Some(Leaf::Entity(a))
            } else {
                None
            }
        }
        (Leaf::Decimal, Leaf::Decimal) => Some(Leaf::Decimal),
        (Leaf::Ipaddr, Leaf::Ipaddr) => Some(Leaf::Ipaddr),
        _ => None,
    }
}

/// Returns the type of sets whose members have the type `member`; `None` for `None`.
fn set_of<'a>(
    alloc: Global,
    member: Option<StaticType<'a>>,
) -> Result<Option<StaticType<'a>>, NoMemory>
    ensures { IfOk result (λ o. option_map (λ t. static_view t) o
        ≡ option_map set_type (option_map (λ t. static_view t) member.entry)) }
{
    match member {
        Some(ty) => Ok(Some(StaticType::Set(Shared::new(alloc, ty)?))),
        None => Ok(None),
    }
}

/// Returns the common type of two declared records with the same fields, which is the left one; `None` for other
/// records, whatever their common type is. Does not allocate.
fn declared_record<'a>(left: Fields<'_, 'a>, right: Fields<'_, 'a>) -> Option<StaticType<'a>>
    ensures { IfSome result (λ t. Some (static_view t)
        ≡ option_map record_type (common_fields (fields_view left.entry) (fields_view right.entry))) }
{
    match (left, right) {
        (Fields::Declared(a), Fields::Declared(b)) => {
            if same_fields(a, b) {
                Some(StaticType::DeclaredRecord(a))
            } else {
                None
            }
        }
        _ => None,
    }
}

/// Returns the type of records with these fields; never `None`.
fn record_of<'a>(
    alloc: Global,
    fields: Vec<(&'a str, StaticType<'a>, bool)>,
) -> Result<Option<StaticType<'a>>, NoMemory>
    ensures { IfOk result (λ o. option_map (λ t. static_view t) o
        ≡ Some (record_type (built_view fields.entry.items))) }
{
    let fields = Shared::new(alloc, Items::from_vec(fields))?;
    Ok(Some(StaticType::Record(fields)))
}

/// Returns the common type of two types, or `None` if they have none. Builds set types and record types, but borrows
/// the common type of declared records with the same fields.
#[cycle(common_of)]
fn common_of<'a>(
    alloc: Global,
    left: Part<'_, 'a>,
    right: Part<'_, 'a>,
) -> Result<Option<StaticType<'a>>, NoMemory>
    ensures { IfOk result (λ o. option_map (λ t. static_view t) o
        ≡ common (part_view left.entry) (part_view right.entry)) }
{
    match (left.kind(), right.kind()) {
        (TypeKind::Leaf(a), TypeKind::Leaf(b)) => Ok(leaf_type(common_leaf(a, b))),
        (TypeKind::Set(a), TypeKind::Set(b)) => set_of(alloc, common_of(alloc, a, b)?),
        (TypeKind::Record(a), TypeKind::Record(b)) => match declared_record(a, b) {
            Some(ty) => Ok(Some(ty)),
            None => common_record(alloc, a, b),
        },
        _ => Ok(None),
    }
}

/// Returns the type `leaf`, which has no parts, as a static type; `None` for `None`.
fn leaf_type<'a>(leaf: Option<Leaf<'a>>) -> Option<StaticType<'a>>
    ensures { option_map (λ t. static_view t) result ≡ option_map leaf_view leaf.entry }
{
    match leaf {
        Some(leaf) => Some(StaticType::Leaf(leaf)),
        None => None,
    }
}

/// Returns the common type of two record types, field by field, or `None` if they have none.
#[cycle(common_of)]
fn common_record<'a>(
    alloc: Global,
    left: Fields<'_, 'a>,
    right: Fields<'_, 'a>,
) -> Result<Option<StaticType<'a>>, NoMemory>
    ensures { IfOk result (λ o. option_map (λ t. static_view t) o
        ≡ option_map record_type (common_fields (fields_view left.entry) (fields_view right.entry))) }
{
    let mut fields = Vec::new(alloc);
    let count = left.len();
    for at in 0..count {
        match paired(left.get(at), right.get(at)) {
            Some(pair) => match common_of(alloc, pair.left, pair.right)? {
                Some(ty) => fields.push((pair.key, ty, pair.required))?,
                None => return Ok(None),
            },
            None => return Ok(None),
        }
    }
    match right.get(count) {
        Some(_) => Ok(None),
        None => record_of(alloc, fields),
    }
}
