//! The common types of a file, in an order in which one pass finds all that are not records (records.rt) if no name is
//! declared twice. A common type whose definition is only the name of another comes after that other, unless the other
//! leads back to it.
ghost use Rattle.std.specs.Prelude.{◌≡◌, ◌++◌, ℕ, List, IfOk, OnOk, map};
ghost use Rattle.std.specs.BTreeMap.{get_by_text};
ghost use Rattle.schema_types.specs.Orders.{graph_of, IsSuccessorsFirst};
ghost use Rattle.schema_types.specs.Views.{raw_view};
ghost use Rattle.schema_types.specs.NamesViews.{scope_of};
ghost use Rattle.schema_reading.specs.inner.StatedViews.{common_view, namespace_view};
ghost use Rattle.schema_reading.specs.Records.{common_meant};
ghost use Rattle.schema_reading.specs.Qualifying.{common_in, commons_declared};
ghost use Rattle.schema_reading.specs.inner.Uses.{listed_view, in_list, place_of, place_meant, place_used, uses};

use crate::declaring::full_text;
use crate::records::find_common;
use crate::stated::{StatedCommon, StatedNamespace};
use plain::NoMemory;
use schema_types::{Names, RawType, successors_first};
use std::alloc::Global;
use std::collections::BTreeMap;
use values::TypeName;

/// A common type, and the name of the namespace that declares it.
#[derive(Clone, Copy)]
pub(crate) struct ListedCommon<'a> {
    pub(crate) own: &'a Option<TypeName>,
    pub(crate) common: &'a StatedCommon,
}

/// Appends the common types that a namespace declares, in order.
fn add_all<'a>(
    own: &'a Option<TypeName>,
    commons: &'a [StatedCommon],
    listed: &mut Vec<ListedCommon<'a>>,
) -> Result<(), NoMemory>
    ensures { OnOk result (map listed_view listed.new.items ≡ map listed_view listed.old.items
        ++ map (λ c. common_in own.now c) (map common_view commons.now)) }
{
    for common in commons {
        listed.push(ListedCommon { own, common })?;
    }
    Ok(())
}

/// Returns the common types that a file declares, in order.
pub(crate) fn list_all<'a>(
    alloc: Global,
    stated: &'a [StatedNamespace],
) -> Result<Vec<ListedCommon<'a>>, NoMemory>
    ensures { IfOk result (λ listed. map listed_view listed.items
        ≡ commons_declared (map namespace_view stated.now)) }
{
    let mut listed = Vec::new(alloc);
    for namespace in stated {
        add_all(&namespace.name, namespace.commons.as_slice(), &mut listed)?;
    }
    Ok(listed)
}

/// Returns the index of each declared name; the last index for a name that is declared more than once.
fn places_of(
    alloc: Global,
    commons: &[ListedCommon<'_>],
) -> Result<BTreeMap<String, usize>, NoMemory>
    ensures { IfOk result (λ places. (q : List ℕ)
        → get_by_text places q ≡ place_of (map listed_view commons.now) q) }
{
    let mut places = BTreeMap::new(alloc);
    for place in 0..commons.len() {
        let listed = &commons[place];
        let name = full_text(alloc, listed.own, &listed.common.name)?;
        places.insert(name, place)?;
    }
    Ok(places)
}

/// Returns the index of a name, if it is declared.
fn place_at(name: &str, places: &BTreeMap<String, usize>) -> Option<usize>
    ensures { result ≡ get_by_text places.now name.now }
{
    places.get(name).copied()
}

/// Returns the index that `places` has for the common type that a type names, if there is one.
fn place_meant(
    alloc: Global,
    names: &Names,
    own: &Option<TypeName>,
    ty: &RawType,
    places: &BTreeMap<String, usize>,
) -> Result<Option<usize>, NoMemory>
    ensures { IfOk result (λ place. place ≡ place_meant (λ q. get_by_text places.now q)
        (common_meant (scope_of names.now) own.now (raw_view ty.now))) }
{
    match find_common(alloc, names, own, ty)? {
        Some(name) => Ok(place_at(name.as_str(), places)),
        None => Ok(None),
    }
}

/// Returns the index as a list; an empty list for `None`.
fn in_list(alloc: Global, place: Option<usize>) -> Result<Vec<usize>, NoMemory>
    ensures { IfOk result (λ places. places.items ≡ in_list place) }
{
    let mut places = Vec::new(alloc);
    if let Some(place) = place {
        places.push(place)?;
    }
    Ok(places)
}

/// Returns, as a list, the index of the common type that the definition of `listed` names. The list is empty if the
/// definition names no common type, or if `places` has no index for the name.
fn reference_of(
    alloc: Global,
    names: &Names,
    listed: &ListedCommon<'_>,
    places: &BTreeMap<String, usize>,
) -> Result<Vec<usize>, NoMemory>
    ensures { IfOk result (λ used. used.items
        ≡ place_used (λ q. get_by_text places.now q) (scope_of names.now) (listed_view listed.now)) }
{
    let place = place_meant(alloc, names, listed.own, &listed.common.ty, places)?;
    in_list(alloc, place)
}

/// Returns for each common type the index of the common type that its definition names, if it names one.
fn uses_of(
    alloc: Global,
    names: &Names,
    commons: &[ListedCommon<'_>],
    places: &BTreeMap<String, usize>,
) -> Result<Vec<Vec<usize>>, NoMemory>
    ensures { IfOk result (λ edges. graph_of edges.items
        ≡ map (λ c. place_used (λ q. get_by_text places.now q) (scope_of names.now) c)
        (map listed_view commons.now)) }
{
    let mut edges = Vec::new(alloc);
    for listed in commons {
        let used = reference_of(alloc, names, listed, places)?;
        edges.push(used)?;
    }
    Ok(edges)
}

/// Returns the indices of the common types, without duplicates. A common type whose definition is only the name of
/// another comes after that other, unless the other leads back to it. If no name is declared twice, one pass in this
/// order finds each common type that is not a record.
pub(crate) fn order_of(
    alloc: Global,
    names: &Names,
    commons: &[ListedCommon<'_>],
) -> Result<Vec<usize>, NoMemory>
    ensures { IfOk result (λ order. IsSuccessorsFirst
        (uses (scope_of names.now) (map listed_view commons.now)) order.items) }
{
    let places = places_of(alloc, commons)?;
    let edges = uses_of(alloc, names, commons, &places)?;
    successors_first(alloc, edges.as_slice())
}
