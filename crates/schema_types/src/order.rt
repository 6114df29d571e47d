//! An order of common types in which each comes after those that it mentions, except those that lead back to it. So, if
//! no name is declared twice, one pass expands each type that has an expansion.
ghost use Rattle.std.specs.Prelude.{◌≡◌, ◌++◌, ℕ, List, IfOk, OnOk, map};
ghost use Rattle.std.specs.BTreeMap.{get_by_text};
ghost use Rattle.schema_types.specs.Orders.{graph_of, IsSuccessorsFirst};
ghost use Rattle.schema_types.specs.QualifiedViews.{qualified_view, qualified_fields_view, resolved_common_view};
ghost use Rattle.schema_types.specs.inner.Order.{places_named, fields_name, place_of, listed, uses};

use crate::place_order::successors_first;
use crate::qualified::{QualifiedType, ResolvedCommon};
use plain::NoMemory;
use std::alloc::Global;
use std::collections::BTreeMap;

/// Appends the indices of the common types that a type mentions.
#[cycle(add_named)]
#[tactic(auto, unfolding(crate::specs::inner::Order::places_named))]
fn add_named(
    ty: &QualifiedType,
    places: &BTreeMap<String, usize>,
    found: &mut Vec<usize>,
) -> Result<(), NoMemory>
    ensures { OnOk result (found.new.items
        ≡ found.old.items ++ places_named (λ q. get_by_text places.now q) (qualified_view ty.now)) }
{
    match ty {
        QualifiedType::Text
        | QualifiedType::Long
        | QualifiedType::Boolean
        | QualifiedType::Decimal
        | QualifiedType::Ipaddr
        | QualifiedType::Entity(_) => Ok(()),
        QualifiedType::Set(element) => add_named(element, places, found),
        QualifiedType::Record(fields) => add_all_named(fields, places, found),
        QualifiedType::Common(name) => add_place(place_at(name.as_str(), places), found),
    }
}

/// Appends the indices of the common types that the types of fields mention.
#[cycle(add_named)]
#[tactic(auto, unfolding(crate::specs::inner::Order::places_named))]
fn add_all_named(
    fields: &Vec<(String, QualifiedType, bool)>,
    places: &BTreeMap<String, usize>,
    found: &mut Vec<usize>,
) -> Result<(), NoMemory>
    ensures { OnOk result (found.new.items
        ≡ found.old.items ++ fields_name (λ q. get_by_text places.now q) (qualified_fields_view fields.now.items)) }
{
    for field in fields {
        add_named(&field.1, places, found)?;
    }
    Ok(())
}

/// Returns the index of a name, if it is declared.
fn place_at(name: &str, places: &BTreeMap<String, usize>) -> Option<usize>
    ensures { result ≡ get_by_text places.now name.now }
{
    places.get(name).copied()
}

/// Appends the index, if there is one.
fn add_place(place: Option<usize>, found: &mut Vec<usize>) -> Result<(), NoMemory>
    ensures { OnOk result (found.new.items ≡ found.old.items ++ listed place) }
{
    if let Some(place) = place {
        found.push(place)?;
    }
    Ok(())
}

/// Returns the index of each declared name; the last one for a name that is declared twice.
fn places_of(alloc: Global, commons: &[ResolvedCommon]) -> Result<BTreeMap<String, usize>, NoMemory>
    ensures { IfOk result (λ places. (q : List ℕ)
        → get_by_text places q ≡ place_of (map resolved_common_view commons.now) q) }
{
    let mut places = BTreeMap::new(alloc);
    for place in 0..commons.len() {
        let name = String::from_str(alloc, commons[place].name.as_str())?;
        places.insert(name, place)?;
    }
    Ok(places)
}

/// Returns the indices of the common types that a type mentions.
fn named_in(
    alloc: Global,
    ty: &QualifiedType,
    places: &BTreeMap<String, usize>,
) -> Result<Vec<usize>, NoMemory>
    ensures { IfOk result (λ named. named.items
        ≡ places_named (λ q. get_by_text places.now q) (qualified_view ty.now)) }
{
    let mut named = Vec::new(alloc);
    add_named(ty, places, &mut named)?;
    Ok(named)
}

/// Returns for each common type the indices of the common types that it mentions.
fn uses_of(
    alloc: Global,
    commons: &[ResolvedCommon],
    places: &BTreeMap<String, usize>,
) -> Result<Vec<Vec<usize>>, NoMemory>
    ensures { IfOk result (λ edges. graph_of edges.items
        ≡ map (λ d. places_named (λ q. get_by_text places.now q) d.1) (map resolved_common_view commons.now)) }
{
    let mut edges = Vec::new(alloc);
    for common in commons {
        let named = named_in(alloc, &common.ty, places)?;
        edges.push(named)?;
    }
    Ok(edges)
}

/// Returns the indices of the common types, without duplicates. The index of a type comes after those of the types that
/// it mentions, except types that lead back to it. If no name is declared twice, one pass in this order expands each
/// type that has an expansion.
pub(crate) fn order_of(alloc: Global, commons: &[ResolvedCommon]) -> Result<Vec<usize>, NoMemory>
    ensures { IfOk result (λ order. IsSuccessorsFirst (uses (map resolved_common_view commons.now)) order.items) }
{
    let places = places_of(alloc, commons)?;
    let edges = uses_of(alloc, commons, &places)?;
    successors_first(alloc, edges.as_slice())
}
