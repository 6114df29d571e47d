//! The hierarchies of actions and of entity types.
ghost use Rattle.std.specs.Prelude.{◌≡◌, IfOk, OnOk, map};
ghost use Rattle.std.specs.BTreeMap.{keys};
ghost use Rattle.ancestor_search.specs.Hierarchy.{IsAscending, referenced, no_parents, with_parents};
ghost use Rattle.ancestor_search.specs.contracts.searched.SearchedAncestry.TheImpl as searched;
ghost use Rattle.schema_reading.specs.ResolvedViews.{resolved_action_view, resolved_entity_type_view};
ghost use Rattle.schema.specs.Schemas.{with_actions, with_types, type_uid};
ghost use Rattle.schema.specs.inner.Making.{AddsMember, AreMembers};

use crate::maps::put;
use ancestor_search::{Hierarchy, ParentsOf, Searched};
use plain::{Items, NoMemory};
use schema_reading::{ResolvedAction, ResolvedEntityType};
use std::alloc::Global;
use std::collections::BTreeMap;
use values::{EntityUid, SharedText, TypeName};

/// Returns copies of these uids, as a vector.
fn copy_uids(alloc: Global, uids: &[EntityUid]) -> Result<Vec<EntityUid>, NoMemory>
    ensures { IfOk result (λ copies. copies.items ≡ uids.now) }
{
    let mut copies = Vec::new(alloc);
    for uid in uids {
        copies.push(uid.copy()?)?;
    }
    Ok(copies)
}

/// Returns copies of the uids to which these references point.
fn copy_all(alloc: Global, uids: &[&EntityUid]) -> Result<Items<EntityUid>, NoMemory>
    ensures { IfOk result (λ copies. copies ≡ referenced uids.now) }
{
    let mut copies = Vec::new(alloc);
    for uid in uids {
        copies.push(uid.copy()?)?;
    }
    Ok(Items::from_vec(copies))
}

/// Returns an entity type as a node of a hierarchy: the uid of that type with an empty id.
pub(crate) fn type_uid(alloc: Global, name: &TypeName) -> Result<EntityUid, NoMemory>
    ensures { IfOk result (λ u. u ≡ type_uid name.now) }
{
    let type_name = name.copy()?;
    let id = SharedText::from_str(alloc, "")?;
    Ok(EntityUid { type_name, id })
}

/// Returns these entity types as nodes of a hierarchy ([`type_uid`]).
fn type_uids(alloc: Global, types: &[TypeName]) -> Result<Vec<EntityUid>, NoMemory>
    ensures { IfOk result (λ uids. uids.items ≡ map type_uid types.now) }
{
    let mut uids = Vec::new(alloc);
    for name in types {
        uids.push(type_uid(alloc, name)?)?;
    }
    Ok(uids)
}

/// Sets the parents of an action.
fn set_action(alloc: Global, edges: &mut Searched, action: &ResolvedAction) -> Result<(), NoMemory>
    ensures { OnOk result (searched.parents-value.it edges.new
        ≡ with_parents (searched.parents-value.it edges.old) action.now.uid action.now.parents) }
{
    let parents = copy_uids(alloc, action.parents.as_slice())?;
    let uid = action.uid.copy()?;
    edges.set_parents(uid, parents)?;
    Ok(())
}

/// Returns the hierarchy of actions.
pub(crate) fn action_edges(alloc: Global, actions: &[ResolvedAction]) -> Result<Searched, NoMemory>
    ensures { IfOk result (λ s. searched.parents-value.it s
        ≡ with_actions no_parents (map resolved_action_view actions.now)) }
{
    let mut edges = Searched::new(alloc);
    for action in actions {
        set_action(alloc, &mut edges, action)?;
    }
    Ok(edges)
}

/// Sets the parents of an entity type.
fn set_type(
    alloc: Global,
    edges: &mut Searched,
    entity_type: &ResolvedEntityType,
) -> Result<(), NoMemory>
    ensures { OnOk result (searched.parents-value.it edges.new
        ≡ with_parents (searched.parents-value.it edges.old) (type_uid entity_type.now.name)
        (map type_uid entity_type.now.parents)) }
{
    let parents = type_uids(alloc, entity_type.parents.as_slice())?;
    let uid = type_uid(alloc, &entity_type.name)?;
    edges.set_parents(uid, parents)?;
    Ok(())
}

/// Returns the hierarchy of entity types.
pub(crate) fn type_edges(
    alloc: Global,
    entity_types: &[ResolvedEntityType],
) -> Result<Searched, NoMemory>
    ensures { IfOk result (λ s. searched.parents-value.it s
        ≡ with_types no_parents (map resolved_entity_type_view entity_types.now)) }
{
    let mut edges = Searched::new(alloc);
    for entity_type in entity_types {
        set_type(alloc, &mut edges, entity_type)?;
    }
    Ok(edges)
}

/// Adds an action with its parents to `members`.
fn add_member(
    alloc: Global,
    edges: &Searched,
    action: &ResolvedAction,
    members: &mut BTreeMap<EntityUid, Items<EntityUid>>,
) -> Result<(), NoMemory>
    ensures { OnOk result (AddsMember (searched.parents-value.it edges.now) (resolved_action_view action.now)
        members.old members.new) }
{
    let parents = copy_uids(alloc, edges.parents_of(&action.uid))?;
    let uid = action.uid.copy()?;
    put(members, uid, Items::from_vec(parents))?;
    Ok(())
}

/// Returns the parents of each action, by the action's uid.
pub(crate) fn make_members(
    alloc: Global,
    edges: &Searched,
    actions: &[ResolvedAction],
) -> Result<BTreeMap<EntityUid, Items<EntityUid>>, NoMemory>
    ensures { IfOk result (λ members. AreMembers (searched.parents-value.it edges.now)
        (map resolved_action_view actions.now) members) }
{
    let mut members = BTreeMap::new(alloc);
    for action in actions {
        add_member(alloc, edges, action, &mut members)?;
    }
    Ok(members)
}

/// Returns the uids that are the keys of `members`, ascending.
pub(crate) fn uids_of(
    alloc: Global,
    members: &BTreeMap<EntityUid, Items<EntityUid>>,
) -> Result<Items<EntityUid>, NoMemory>
    ensures items { IfOk result (λ uids. uids ≡ keys members.now) }
    ensures ascending { IsAscending (keys members.now) }
{
    // `len` ensures `ascending`
    let _ordered = members.len();
    let uids: Vec<&EntityUid> = members.keys().collect(alloc)?;
    copy_all(alloc, uids.as_slice())
}
