//! The ancestors of each entity type, as numbers. A uid with an empty id represents its type ([`type_uid`]).
ghost use Rattle.std.specs.Prelude.{◌≡◌, Some, IfOk, OnOk, map};
ghost use Rattle.std.specs.BTreeMap.{get, Updates};
ghost use Rattle.values.specs.Names.{uid_cmp, text_cmp};
ghost use Rattle.ancestor_search.specs.contracts.searched.SearchedAncestry.TheImpl as searched;
ghost use Rattle.schema_reading.specs.ResolvedViews.{resolved_entity_type_view};
ghost use Rattle.schema.specs.inner.Numbering.{AddsName, AreNames, type_points, AreNumbers};

use crate::hierarchies::type_uid;
use crate::maps::put;
use crate::numbering::ancestors_of_each;
use crate::spans::NumberSpan;
use ancestor_search::Searched;
use plain::{Items, NoMemory};
use schema_reading::ResolvedEntityType;
use std::alloc::Global;
use std::collections::BTreeMap;
use values::{EntityUid, TypeName};

/// The numbers of entity types by their names, and at each number the spans of the numbers of the type's ancestors.
#[derive(Drop)]
pub(crate) struct TypeNumbers {
    pub(crate) numbers: BTreeMap<TypeName, usize>,
    pub(crate) spans: Items<Items<NumberSpan>>,
}

/// Sets the number of the type of `uid` in `named` to `number`.
fn put_name(
    uid: &EntityUid,
    number: usize,
    named: &mut BTreeMap<TypeName, usize>,
) -> Result<(), NoMemory>
    ensures { OnOk result (Updates text_cmp named.old named.new uid.now.type_name (Some number)) }
{
    let name = uid.type_name.copy()?;
    put(named, name, number)?;
    Ok(())
}

/// Sets the number of the type of `uid` in `named` to the number of `uid` in `numbers`, if it has one.
fn add_name(
    numbers: &BTreeMap<EntityUid, usize>,
    uid: &EntityUid,
    named: &mut BTreeMap<TypeName, usize>,
) -> Result<(), NoMemory>
    ensures { OnOk result (AddsName (get uid_cmp numbers.now) uid.now named.old named.new) }
{
    match numbers.get(uid) {
        Some(number) => put_name(uid, *number, named),
        None => Ok(()),
    }
}

/// Returns the numbers that `uids` have in `numbers`, each under the type of its uid.
fn numbers_by_name(
    alloc: Global,
    numbers: &BTreeMap<EntityUid, usize>,
    uids: &[EntityUid],
) -> Result<BTreeMap<TypeName, usize>, NoMemory>
    ensures { IfOk result (λ named. AreNames (get uid_cmp numbers.now) uids.now named) }
{
    let mut named = BTreeMap::new(alloc);
    for uid in uids {
        add_name(numbers, uid, &mut named)?;
    }
    Ok(named)
}

/// Returns the uids that represent entity types.
fn points_of(alloc: Global, entity_types: &[ResolvedEntityType]) -> Result<Vec<EntityUid>, NoMemory>
    ensures { IfOk result (λ uids. uids.items ≡ type_points (map resolved_entity_type_view entity_types.now)) }
{
    let mut uids = Vec::new(alloc);
    for entity_type in entity_types {
        uids.push(type_uid(alloc, &entity_type.name)?)?;
    }
    Ok(uids)
}

/// Returns the numbers of entity types, and the ancestors of each.
pub(crate) fn number_types(
    alloc: Global,
    edges: &Searched,
    entity_types: &[ResolvedEntityType],
) -> Result<TypeNumbers, NoMemory>
    ensures { IfOk result (λ t. AreNumbers (searched.parents-value.it edges.now)
        (map resolved_entity_type_view entity_types.now) t) }
{
    let uids = points_of(alloc, entity_types)?;
    let above = ancestors_of_each(alloc, edges, uids.as_slice())?;
    let numbers = numbers_by_name(alloc, &above.numbers, uids.as_slice())?;
    Ok(TypeNumbers {
        numbers,
        spans: above.spans,
    })
}
