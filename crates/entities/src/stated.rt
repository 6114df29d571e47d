//! Parsing of the form of an entity's JSON, whatever the entity's type.
ghost use Rattle.std.specs.Prelude.{◌≡◌, option_map};
ghost use Rattle.serde_json.specs.View.{view, items_view};
ghost use Rattle.json_words.specs.ReadsAs.{ReadsAs};
ghost use Rattle.entities.specs.declared.fault.EntityFault.TheVariants as EntityFault;
ghost use Rattle.entities.specs.EntityForms.{stated_uid, uids_of, stated_parents, is_absent_or_object};
ghost use Rattle.entities.specs.EntityForms.{is_absent_or_empty};
ghost use Rattle.entities.specs.EntityForms.{has_objects, stated_in};

use crate::fault::EntityFault;
use json_words::only_keys;
use plain::Items;
use serde_json::Value;
use std::alloc::Global;
use values::EntityUid;

/// The uid of an entity and its parents, as its JSON describes them.
#[derive(Drop)]
pub struct StatedEntity {
    pub uid: EntityUid,
    /// The parents, in the order of the JSON array, with repeats.
    pub parents: Items<EntityUid>,
}

/// Returns the uid that a value describes, directly or under `__entity`; `BadShape` if it describes none.
fn read_uid(alloc: Global, value: &Value) -> Result<EntityUid, EntityFault>
    ensures { ReadsAs EntityFault.NoMemory (λ u. u) result (stated_uid (view value.now)) }
{
    match entity_uids::read_uid(alloc, value)? {
        Some(uid) => Ok(uid),
        None => Err(EntityFault::BadShape),
    }
}

/// Returns the uids that the items of an entity's array `parents` describe; `BadShape` if one of them describes none.
fn parent_uids(alloc: Global, values: &[Value]) -> Result<Items<EntityUid>, EntityFault>
    ensures { ReadsAs EntityFault.NoMemory (λ us. us) result (uids_of (items_view values.now)) }
{
    match entity_uids::read_uids(alloc, values)? {
        Some(uids) => Ok(uids),
        None => Err(EntityFault::BadShape),
    }
}

/// Returns the parents of an entity, given the value of its key `parents`; an empty list if the key is absent, and
/// `BadShape` if the value is not an array of uids.
fn read_parents(alloc: Global, parents: Option<&Value>) -> Result<Items<EntityUid>, EntityFault>
    ensures { ReadsAs EntityFault.NoMemory (λ us. us) result
        (stated_parents (option_map (λ v. view v.now) parents.entry)) }
{
    match parents {
        None => Ok(Items::new(alloc)),
        Some(value) => match value.as_array() {
            Some(list) => parent_uids(alloc, list),
            None => Err(EntityFault::BadShape),
        },
    }
}

/// Returns whether the value is absent or an object. Does not allocate.
pub fn is_absent_or_object(found: Option<&Value>) -> bool
    ensures { result ≡ is_absent_or_object (option_map (λ v. view v.now) found.entry) }
{
    match found {
        None => true,
        Some(value) => value.as_object().is_some(),
    }
}

/// Returns whether the value is absent or an object without members.
pub(crate) fn is_absent_or_empty(found: Option<&Value>) -> bool
    ensures { result ≡ is_absent_or_empty (option_map (λ v. view v.now) found.entry) }
{
    match found {
        None => true,
        Some(value) => only_keys(value, &[]),
    }
}

/// Returns whether the attributes and the tags of an entity, if present, are objects.
fn has_objects(value: &Value) -> bool
    ensures { result ≡ has_objects (view value.now) }
{
    is_absent_or_object(value.get("attrs")) && is_absent_or_object(value.get("tags"))
}

/// Returns the uid and the parents that an entity's JSON describes; `BadShape` if it does not have the form of an
/// entity.
#[tactic(auto, unfolding(crate::specs::EntityForms::stated_in))]
pub(crate) fn read_stated(alloc: Global, value: &Value) -> Result<StatedEntity, EntityFault>
    ensures { ReadsAs EntityFault.NoMemory (λ e. e) result (stated_in (view value.now)) }
{
    let Some(uid) = value.get("uid") else {
        return Err(EntityFault::BadShape);
    };
    let uid = read_uid(alloc, uid)?;
    if !has_objects(value) {
        return Err(EntityFault::BadShape);
    }
    let parents = read_parents(alloc, value.get("parents"))?;
    Ok(StatedEntity { uid, parents })
}
