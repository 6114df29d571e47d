//! The ancestors of each entity, as numbers.
//!
//! Entities are numbered, each after its parents unless these lead back to it. So the numbers of an entity's
//! ancestors are often consecutive, and few spans contain them. One span suffices for each entity if the hierarchy is a
//! chain, or layers in which each entity is a member of all entities of the layer before.
ghost use Rattle.std.specs.Prelude.{◌≡◌, ◌++◌, ◌∷◌, ⊤, [], Contains, Some, None, true, IfOk, OnOk, MatchOption};
ghost use Rattle.std.specs.Prelude.{option_map};
ghost use Rattle.std.specs.List.{slice_get};
ghost use Rattle.std.specs.BTreeMap.{get};
ghost use Rattle.values.specs.Names.{uid_cmp};
ghost use Rattle.values.specs.declared.entity_uid.EntityUid.{EntityUid};
ghost use Rattle.ancestor_search.specs.Hierarchy.{referenced};
ghost use Rattle.ancestor_search.specs.contracts.searched.SearchedAncestry.TheImpl as searched;
ghost use Rattle.schema.specs.inner.Numbering.{IsApart, IsNumbering, IsNumbered, NumbersAll, AddsNumber, AreAncestors};
ghost use Rattle.schema.specs.inner.Numbering.{KeepsAncestors, HasAncestors};
ghost use Rattle.schema.specs.inner.Numbering.{AddsParent, AddsParents, single, single_of, singles, HasSpans};

use crate::maps::put;
use crate::spans::{NumberSpan, joined};
use ancestor_search::{Ancestry, ParentsOf, Searched};
use plain::{Items, NoMemory};
use schema_types::successors_first;
use std::alloc::Global;
use std::collections::BTreeMap;
use values::EntityUid;

/// Numbered entities: the number of each is its index in the list.
#[derive(Drop)]
pub(crate) struct Numbered<'e> {
    numbers: BTreeMap<EntityUid, usize>,
    listed: Vec<&'e EntityUid>,
}

/// The numbers of entities, and at the index of each number the spans of the numbers of that entity's ancestors.
#[derive(Drop)]
pub(crate) struct NumberedAncestors {
    pub(crate) numbers: BTreeMap<EntityUid, usize>,
    pub(crate) spans: Items<Items<NumberSpan>>,
}

/// Returns the index of each uid in the list.
fn places_of(alloc: Global, uids: &[EntityUid]) -> Result<BTreeMap<EntityUid, usize>, NoMemory> {
    let mut places = BTreeMap::new(alloc);
    for place in 0..uids.len() {
        let uid = uids[place].copy()?;
        put(&mut places, uid, place)?;
    }
    Ok(places)
}

/// Returns the indices that `places` has for the parents of an entity. Skips a parent without an index.
fn parents_at(
    alloc: Global,
    edges: &Searched,
    places: &BTreeMap<EntityUid, usize>,
    uid: &EntityUid,
) -> Result<Vec<usize>, NoMemory> {
    let mut found = Vec::new(alloc);
    for parent in edges.parents_of(uid) {
        if let Some(place) = places.get(parent) {
            found.push(*place)?;
        }
    }
    Ok(found)
}

/// Returns, for each uid of the list, the indices of its parents in the list.
fn edges_by_place(
    alloc: Global,
    edges: &Searched,
    uids: &[EntityUid],
) -> Result<Vec<Vec<usize>>, NoMemory> {
    let places = places_of(alloc, uids)?;
    let mut found = Vec::new(alloc);
    for uid in uids {
        found.push(parents_at(alloc, edges, &places, uid)?)?;
    }
    Ok(found)
}

/// Returns the uids at these indices. Skips an index past the end.
fn those_at<'e>(
    alloc: Global,
    uids: &'e [EntityUid],
    places: &[usize],
) -> Result<Vec<&'e EntityUid>, NoMemory> {
    let mut found = Vec::new(alloc);
    for place in places {
        if let Some(uid) = uids.get(*place) {
            found.push(uid)?;
        }
    }
    Ok(found)
}

/// Appends references to all uids of a list.
fn append_all<'e>(uids: &'e [EntityUid], found: &mut Vec<&'e EntityUid>) -> Result<(), NoMemory>
    ensures { OnOk result (referenced found.new.items ≡ referenced found.old.items ++ uids.now) }
{
    for uid in uids {
        found.push(uid)?;
    }
    Ok(())
}

/// Returns the uids of the list, first in an order in which each follows its parents unless these lead back to it, and
/// then all again in the order of the list. Any order is correct; this one saves searches ([`ancestor_spans`]).
fn in_order<'e>(
    alloc: Global,
    edges: &Searched,
    uids: &'e [EntityUid],
) -> Result<Vec<&'e EntityUid>, NoMemory>
    ensures { IfOk result (λ found. (u : EntityUid) → Contains uids.now u → Contains (referenced found.items) u) }
{
    let graph = edges_by_place(alloc, edges, uids)?;
    let order = successors_first(alloc, graph.as_slice())?;
    let mut found = those_at(alloc, uids, order.as_slice())?;
    append_all(uids, &mut found)?;
    Ok(found)
}

/// Gives an entity the next number, if it has none.
fn add_number<'e>(uid: &'e EntityUid, numbered: &mut Numbered<'e>) -> Result<(), NoMemory>
    ensures { OnOk result (AddsNumber uid.now numbered.old numbered.new) }
{
    if numbered.numbers.contains_key(uid) {
        return Ok(());
    }
    let key = uid.copy()?;
    put(&mut numbered.numbers, key, numbered.listed.len())?;
    numbered.listed.push(uid)?;
    Ok(())
}

/// Returns an empty numbering.
fn none_numbered<'e>(alloc: Global) -> Numbered<'e>
    ensures numbered { IsNumbered result }
    ensures none { (u : EntityUid) → get uid_cmp result.numbers u ≡ None }
{
    Numbered {
        numbers: BTreeMap::new(alloc),
        listed: Vec::new(alloc),
    }
}

/// Numbers the entities of a list, in order.
fn number_all<'e>(alloc: Global, uids: &[&'e EntityUid]) -> Result<Numbered<'e>, NoMemory>
    ensures numbered { IfOk result (λ n. IsNumbered n) }
    ensures all { IfOk result (λ n. NumbersAll (referenced uids.now) (get uid_cmp n.numbers)) }
{
    let mut numbered = none_numbered(alloc);
    for uid in uids {
        add_number(*uid, &mut numbered)?;
    }
    Ok(numbered)
}

/// Returns the spans that `reached` has at a number, or `None` past its end.
fn reached_at(reached: &[Items<NumberSpan>], number: usize) -> Option<&[NumberSpan]>
    ensures { option_map (λ s. s.now) result ≡ slice_get reached.now number }
{
    match reached.get(number) {
        Some(spans) => Some(spans.as_slice()),
        None => None,
    }
}

/// Appends a number and the numbers of its entity's ancestors to `spans`; returns `false` if `reached` does not have
/// these ancestors yet.
fn add_reached(
    reached: &[Items<NumberSpan>],
    number: usize,
    spans: &mut Vec<NumberSpan>,
) -> Result<bool, NoMemory>
    ensures { IfOk result (λ known. known ≡ true → HasSpans reached.now number spans.old.items spans.new.items) }
{
    let Some(further) = reached_at(reached, number) else {
        return Ok(false);
    };
    push_single(number, spans)?;
    spans.extend_from_slice(further)?;
    Ok(true)
}

/// Appends the numbers of a parent and of its ancestors to `spans`; returns `false` if the parent has no number, or if
/// `reached` does not have these ancestors yet.
fn add_parent(
    numbers: &BTreeMap<EntityUid, usize>,
    reached: &[Items<NumberSpan>],
    parent: &EntityUid,
    spans: &mut Vec<NumberSpan>,
) -> Result<bool, NoMemory>
    ensures { IfOk result (λ known. known ≡ true
        → AddsParent (get uid_cmp numbers.now) reached.now parent.now spans.old.items spans.new.items) }
{
    match numbers.get(parent) {
        Some(number) => add_reached(reached, *number, spans),
        None => Ok(false),
    }
}

/// Returns the numbers of parents and of their ancestors; `None` if one of the parents has no number, or if `reached`
/// does not have its ancestors yet.
fn add_parents(
    alloc: Global,
    numbers: &BTreeMap<EntityUid, usize>,
    reached: &[Items<NumberSpan>],
    parents: &[EntityUid],
) -> Result<Option<Vec<NumberSpan>>, NoMemory>
    ensures { IfOk result (λ o. MatchOption o ⊤
        (λ spans. AddsParents (get uid_cmp numbers.now) reached.now parents.now [] spans.items)) }
{
    let mut spans = Vec::new(alloc);
    for parent in parents {
        if !add_parent(numbers, reached, parent, &mut spans)? {
            return Ok(None);
        }
    }
    Ok(Some(spans))
}

/// Appends the span of one number to `spans`.
fn push_single(number: usize, spans: &mut Vec<NumberSpan>) -> Result<(), NoMemory>
    ensures { OnOk result (spans.new.items ≡ spans.old.items ++ single number ∷ []) }
{
    spans.push(NumberSpan {
        first: number,
        last: number,
    })?;
    Ok(())
}

/// Appends the span of the number of an entity, if it has one, to `spans`.
fn add_single(
    numbers: &BTreeMap<EntityUid, usize>,
    uid: &EntityUid,
    spans: &mut Vec<NumberSpan>,
) -> Result<(), NoMemory>
    ensures { OnOk result (spans.new.items ≡ spans.old.items ++ single_of (get uid_cmp numbers.now uid.now)) }
{
    match numbers.get(uid) {
        Some(number) => push_single(*number, spans),
        None => Ok(()),
    }
}

/// Returns the numbers of some entities, as spans of one number each.
fn numbers_of(
    alloc: Global,
    numbers: &BTreeMap<EntityUid, usize>,
    uids: &[&EntityUid],
) -> Result<Vec<NumberSpan>, NoMemory>
    ensures { IfOk result (λ spans. spans.items ≡ singles (get uid_cmp numbers.now) (referenced uids.now)) }
{
    let mut spans = Vec::new(alloc);
    for uid in uids {
        add_single(numbers, *uid, &mut spans)?;
    }
    Ok(spans)
}

/// Returns the numbers of the ancestors of an entity, by a search.
fn spans_found(
    alloc: Global,
    edges: &Searched,
    numbers: &BTreeMap<EntityUid, usize>,
    uid: &EntityUid,
) -> Result<Items<NumberSpan>, NoMemory>
    requires { IsApart (get uid_cmp numbers.now) }
    ensures { IfOk result (λ spans.
        HasAncestors (searched.parents-value.it edges.now) (get uid_cmp numbers.now) uid.now spans) }
{
    let found = edges.ancestors(uid)?;
    let spans = numbers_of(alloc, numbers, found.as_slice())?;
    joined(alloc, spans)
}

/// Returns the numbers of the ancestors of an entity: by its parents if `reached` has the ancestors of each, else by a
/// search.
fn ancestor_spans(
    alloc: Global,
    edges: &Searched,
    numbers: &BTreeMap<EntityUid, usize>,
    reached: &[Items<NumberSpan>],
    uid: &EntityUid,
) -> Result<Items<NumberSpan>, NoMemory>
    requires apart { IsApart (get uid_cmp numbers.now) }
    requires keeps { KeepsAncestors (searched.parents-value.it edges.now) (get uid_cmp numbers.now) reached.now }
    ensures { IfOk result (λ spans.
        HasAncestors (searched.parents-value.it edges.now) (get uid_cmp numbers.now) uid.now spans) }
{
    let by_parents = add_parents(alloc, numbers, reached, edges.parents_of(uid))?;
    match by_parents {
        Some(spans) => joined(alloc, spans),
        None => spans_found(alloc, edges, numbers, uid),
    }
}

/// Returns the numbers of the ancestors of each of the numbered entities, in their order.
fn all_spans(
    alloc: Global,
    edges: &Searched,
    numbers: &BTreeMap<EntityUid, usize>,
    uids: &[&EntityUid],
) -> Result<Items<Items<NumberSpan>>, NoMemory>
    requires { IsNumbering (get uid_cmp numbers.now) (referenced uids.now) }
    ensures { IfOk result (λ spans.
        AreAncestors (searched.parents-value.it edges.now) (get uid_cmp numbers.now) spans) }
{
    let mut reached = Items::new(alloc);
    for uid in uids {
        let spans = ancestor_spans(alloc, edges, numbers, reached.as_slice(), *uid)?;
        reached.push(spans)?;
    }
    Ok(reached)
}

/// Numbers these entities, and returns the numbers of the ancestors of each.
pub(crate) fn ancestors_of_each(
    alloc: Global,
    edges: &Searched,
    uids: &[EntityUid],
) -> Result<NumberedAncestors, NoMemory>
    ensures are { IfOk result (λ a.
        AreAncestors (searched.parents-value.it edges.now) (get uid_cmp a.numbers) a.spans) }
    ensures all { IfOk result (λ a. NumbersAll uids.now (get uid_cmp a.numbers)) }
{
    let order = in_order(alloc, edges, uids)?;
    let numbered = number_all(alloc, order.as_slice())?;
    let spans = all_spans(alloc, edges, &numbered.numbers, numbered.listed.as_slice())?;
    Ok(NumberedAncestors {
        numbers: numbered.numbers,
        spans,
    })
}
