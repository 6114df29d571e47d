//! The size of an expanded type. Sizes saturate at one more than the limits of 10,000 nodes and a depth of 64.
ghost use Rattle.std.specs.Prelude.{◌≡◌, option_map};
ghost use Rattle.schema_types.specs.inner.Table.{leaf_size, no_size as none_of, node_size as above_of};
ghost use Rattle.schema_types.specs.inner.Table.{side_by_side as side_by_side_of};
ghost use Rattle.schema_types.specs.inner.Table.{fits, size_in, sizes_in};
ghost use Rattle.schema_types.specs.TableViews.{size_view, type_table};
ghost use Rattle.schema_types.specs.QualifiedViews.{qualified_view, qualified_fields_view};

use crate::qualified::QualifiedType;
use crate::{Size, Table};

/// Returns whether a type of this size is within the limits.
pub(crate) fn is_within(size: Size) -> bool
    ensures { result ≡ fits (size_view size) }
{
    size.parts <= 10000 && size.deep <= 64
}

/// Returns the size of a type without parts: one node.
fn leaf() -> Size
    ensures { size_view result ≡ leaf_size }
{
    Size { parts: 1, deep: 1 }
}

/// Returns the size of an empty list of fields.
fn nothing() -> Size
    ensures { size_view result ≡ none_of }
{
    Size { parts: 0, deep: 0 }
}

/// Returns the size of a node whose parts together have this size.
fn node_size(size: Size) -> Size
    ensures { size_view result ≡ above_of (size_view size) }
{
    Size {
        parts: size.parts.saturating_add(1).min(10001),
        deep: size.deep.saturating_add(1).min(65),
    }
}

/// Returns the size of two parts together.
fn side_by_side(size: Size, other: Size) -> Size
    ensures { size_view result ≡ side_by_side_of (size_view size) (size_view other) }
{
    Size {
        parts: size.parts.saturating_add(other.parts).min(10001),
        deep: size.deep.max(other.deep),
    }
}

/// Returns the size of a common type, if the table has it.
fn known_size(name: &str, table: &Table) -> Option<Size>
    ensures { option_map size_view result ≡ option_map (λ k. k.size) (type_table table.now name.now) }
{
    match table.get(name) {
        Some(known) => Some(known.size),
        None => None,
    }
}

/// Returns the size of a type's expansion, if the table has an entry for each common type that the type mentions.
#[cycle(size_of)]
#[tactic(auto, unfolding(crate::specs::inner::Table::size_in))]
pub(crate) fn size_of(ty: &QualifiedType, table: &Table) -> Option<Size>
    ensures { option_map size_view result ≡ size_in (type_table table.now) (qualified_view ty.now) }
{
    match ty {
        QualifiedType::Text
        | QualifiedType::Long
        | QualifiedType::Boolean
        | QualifiedType::Decimal
        | QualifiedType::Ipaddr
        | QualifiedType::Entity(_) => Some(leaf()),
        QualifiedType::Set(element) => match size_of(element, table) {
            Some(size) => Some(node_size(size)),
            None => None,
        },
        QualifiedType::Record(fields) => match size_of_fields(fields, table) {
            Some(size) => Some(node_size(size)),
            None => None,
        },
        QualifiedType::Common(name) => known_size(name.as_str(), table),
    }
}

/// Returns the size of the fields together, if the table has an entry for each common type that the fields mention.
#[cycle(size_of)]
#[tactic(auto, unfolding(crate::specs::inner::Table::size_in))]
fn size_of_fields(fields: &Vec<(String, QualifiedType, bool)>, table: &Table) -> Option<Size>
    ensures { option_map size_view result
        ≡ sizes_in (type_table table.now) none_of (qualified_fields_view fields.now.items) }
{
    let mut total = nothing();
    for field in fields {
        match size_of(&field.1, table) {
            Some(size) => total = side_by_side(total, size),
            None => return None,
        }
    }
    Some(total)
}
