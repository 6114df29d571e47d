//! A test of whether two types have a common type, by a walk over their nodes. The walk builds nothing.
ghost use Rattle.std.specs.Prelude.{◌≡◌, IfSome};
ghost use Rattle.std.specs.Bool.{Decides};
ghost use Rattle.typing.specs.Types.{common, common_fields};
ghost use Rattle.type_checker.specs.Views.{boolean_view, leaf_view};
ghost use Rattle.type_checker.specs.inner.Joins.{DescribesCommon, join_with};
ghost use Rattle.type_checker.specs.inner.Parts.{part_view, fields_view};
ghost use Rattle.type_checker.specs.inner.Rows.{paired};

use crate::parts::{FieldPair, FieldPart, Fields, Part, TypeKind};
use crate::same_types::same_fields;
use crate::static_type::{BooleanType, Leaf};

/// The common type of two types, compared with the left one.
#[derive(Clone, Copy)]
pub(crate) enum Join {
    /// There is no common type.
    Apart,
    /// The common type is the left type.
    Left,
    /// The common type is not the left type.
    Wider,
}

impl Join {
    /// Returns whether there is no common type.
    fn is_apart(self) -> bool
        ensures { Decides result (self ≡ Join.Apart) }
    {
        match self {
            Join::Apart => true,
            Join::Left | Join::Wider => false,
        }
    }

    /// Returns the join of all fields, where `self` is the join of the first ones and `more` that of the rest.
    fn with(self, more: Join) -> Join
        ensures { result ≡ join_with more self }
    {
        match more {
            Join::Apart => Join::Apart,
            Join::Left => self,
            Join::Wider => match self {
                Join::Apart => Join::Apart,
                Join::Left | Join::Wider => Join::Wider,
            },
        }
    }
}

/// Returns the join of two boolean types.
fn join_of_booleans(left: BooleanType, right: BooleanType) -> Join
    ensures { DescribesCommon result (boolean_view left) (common (boolean_view left) (boolean_view right)) }
{
    match left {
        BooleanType::True => match right {
            BooleanType::True => Join::Left,
            BooleanType::False | BooleanType::Either => Join::Wider,
        },
        BooleanType::False => match right {
            BooleanType::False => Join::Left,
            BooleanType::True | BooleanType::Either => Join::Wider,
        },
        BooleanType::Either => Join::Left,
    }
}

/// Returns the join of two types without parts.
fn join_of_leaves(left: Leaf<'_>, right: Leaf<'_>) -> Join
    ensures { DescribesCommon result (leaf_view left.entry) (common (leaf_view left.entry) (leaf_view right.entry)) }
{
    match (left, right) {
        (Leaf::Boolean(a), Leaf::Boolean(b)) => join_of_booleans(a, b),
        (Leaf::Long, Leaf::Long) => Join::Left,
        (Leaf::Text, Leaf::Text) => Join::Left,
        (Leaf::Entity(a), Leaf::Entity(b)) => {
            if a.as_str() == b.as_str() {
                Join::Left
            } else {
                Join::Apart
            }
        }
        (Leaf::Decimal, Leaf::Decimal) => Join::Left,
        (Leaf::Ipaddr, Leaf::Ipaddr) => Join::Left,
        _ => Join::Apart,
    }
}

/// Returns two fields as a pair if both are present with one key and the same requirement, else `None`.
pub(crate) fn paired<'r, 's, 'a>(
    left: Option<FieldPart<'r, 'a>>,
    right: Option<FieldPart<'s, 'a>>,
) -> Option<FieldPair<'r, 's, 'a>>
    ensures { result ≡ paired left.entry right.entry }
{
    match left {
        Some(a) => match right {
            Some(b) => {
                if a.key == b.key && a.required == b.required {
                    Some(FieldPair {
                        key: a.key,
                        left: a.part,
                        right: b.part,
                        required: a.required,
                    })
                } else {
                    None
                }
            }
            None => None,
        },
        None => None,
    }
}

/// Returns the join of two record types if both are declared, else `None`. Each declared boolean has the type Bool, so
/// the common type of declared records, if there is one, is the left one.
fn join_of_declared(left: Fields<'_, '_>, right: Fields<'_, '_>) -> Option<Join>
    ensures { IfSome result (λ j. DescribesCommon j (fields_view left.entry)
        (common_fields (fields_view left.entry) (fields_view right.entry))) }
{
    match (left, right) {
        (Fields::Declared(a), Fields::Declared(b)) => {
            if same_fields(a, b) {
                Some(Join::Left)
            } else {
                Some(Join::Apart)
            }
        }
        _ => None,
    }
}

/// Returns the join of two types. Takes time linear in the nodes of the smaller type. Does not allocate.
#[cycle(join_of)]
pub(crate) fn join_of<'a>(left: Part<'_, 'a>, right: Part<'_, 'a>) -> Join
    ensures { DescribesCommon result (part_view left.entry) (common (part_view left.entry) (part_view right.entry)) }
{
    match (left.kind(), right.kind()) {
        (TypeKind::Leaf(a), TypeKind::Leaf(b)) => join_of_leaves(a, b),
        (TypeKind::Set(a), TypeKind::Set(b)) => join_of(a, b),
        (TypeKind::Record(a), TypeKind::Record(b)) => match join_of_declared(a, b) {
            Some(join) => join,
            None => join_of_fields(a, b),
        },
        _ => Join::Apart,
    }
}

/// Returns the join of two record types, field by field.
#[cycle(join_of)]
fn join_of_fields<'a>(left: Fields<'_, 'a>, right: Fields<'_, 'a>) -> Join
    ensures { DescribesCommon result (fields_view left.entry)
        (common_fields (fields_view left.entry) (fields_view right.entry)) }
{
    let mut join = Join::Left;
    let count = left.len();
    for at in 0..count {
        match paired(left.get(at), right.get(at)) {
            Some(pair) => {
                let more = join_of(pair.left, pair.right);
                if more.is_apart() {
                    return Join::Apart;
                }
                join = join.with(more);
            }
            None => return Join::Apart,
        }
    }
    match right.get(count) {
        Some(_) => Join::Apart,
        None => join,
    }
}
