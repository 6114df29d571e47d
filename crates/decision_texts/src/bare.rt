//! Parsing of entities from JSON without a schema; they have no attributes.
ghost use Rattle.std.specs.Prelude.{◌≡◌, option_map};
ghost use Rattle.serde_json.specs.View.{view, items_view};
ghost use Rattle.json_words.specs.ReadsAs.{ReadsAs};
ghost use Rattle.decision_texts.specs.declared.bare.ShapeFault.TheVariants as ShapeFault;
ghost use Rattle.decision_texts.specs.Bare.{stated_uid, is_absent_or_empty, is_bare, uids_of, stated_parents};
ghost use Rattle.decision_texts.specs.Bare.{bare_parents, entity_of};

use entity_data::{Entity, UidSet};
use json_words::only_keys;
use plain::{Items, NoMemory, pair_with};
use serde_json::Value;
use std::alloc::Global;
use thiserror::Error;
use values::{EntityUid, Record};

/// An error of parsing JSON without a schema.
#[derive(Clone, Copy, PartialEq, Eq, Debug, Error)]
pub enum ShapeFault {
    /// An allocation failed.
    #[error("entity 1: out of memory")]
    NoMemory,
    /// The value does not have the form of what is parsed: an entity, a uid or a request.
    #[error("entity 30: JSON without the form of an entity or a request")]
    BadShape,
}

impl From<NoMemory> for ShapeFault {
    ghost use Rattle.decision_texts.specs.declared.bare.ShapeFault.TheVariants.{NoMemory};

    ghost from_gives = { λ _ e. e ≡ NoMemory };

    fn from(_error: NoMemory) -> ShapeFault {
        ShapeFault::NoMemory
    }
}

/// Returns the uid that a value describes, directly or under `__entity`; `BadShape` if it describes none.
fn read_uid(alloc: Global, value: &Value) -> Result<EntityUid, ShapeFault>
    ensures { ReadsAs ShapeFault.NoMemory (λ u. u) result (stated_uid (view value.now)) }
{
    match answer_lines::read_uid(alloc, value)? {
        Some(uid) => Ok(uid),
        None => Err(ShapeFault::BadShape),
    }
}

/// Returns the uids that the items of an entity's array `parents` describe; `BadShape` if any item describes no uid.
fn parent_uids(alloc: Global, values: &[Value]) -> Result<Items<EntityUid>, ShapeFault>
    ensures { ReadsAs ShapeFault.NoMemory (λ us. us) result (uids_of (items_view values.now)) }
{
    match answer_lines::read_uids(alloc, values)? {
        Some(uids) => Ok(uids),
        None => Err(ShapeFault::BadShape),
    }
}

/// Returns the parents that the value of an entity's key `parents` lists, in its order; an empty list if the key is
/// absent, and `BadShape` if the value is not an array of uids.
fn listed_parents(alloc: Global, parents: Option<&Value>) -> Result<Items<EntityUid>, ShapeFault>
    ensures { ReadsAs ShapeFault.NoMemory (λ us. us) result
        (stated_parents (option_map (λ v. view v.now) parents.entry)) }
{
    match parents {
        None => Ok(Items::new(alloc)),
        Some(value) => match value.as_array() {
            Some(list) => parent_uids(alloc, list),
            None => Err(ShapeFault::BadShape),
        },
    }
}

/// Returns the set of the parents that [`listed_parents`] returns, or its error.
#[tactic(auto, unfolding(crate::specs::Bare::bare_parents))]
fn read_parents(alloc: Global, parents: Option<&Value>) -> Result<UidSet, ShapeFault>
    ensures { ReadsAs ShapeFault.NoMemory (λ us. us) result
        (bare_parents (option_map (λ v. view v.now) parents.entry)) }
{
    let listed = listed_parents(alloc, parents)?;
    Ok(UidSet::new(listed.into_vec())?)
}

/// Returns whether the value is absent or an object without members.
pub(crate) fn is_absent_or_empty(found: Option<&Value>) -> bool
    ensures { result ≡ is_absent_or_empty (option_map (λ v. view v.now) found.entry) }
{
    match found {
        None => true,
        Some(value) => only_keys(value, &[]),
    }
}

/// Returns whether an entity has no attributes and no tags.
fn is_bare(value: &Value) -> bool
    ensures { result ≡ is_bare (view value.now) }
{
    is_absent_or_empty(value.get("attrs")) && is_absent_or_empty(value.get("tags"))
}

/// Returns the entity that a value describes, without attributes; `BadShape` if it describes none.
#[tactic(auto, unfolding(crate::specs::Bare::entity_of))]
pub(crate) fn read_entity(alloc: Global, value: &Value) -> Result<Entity, ShapeFault>
    ensures { ReadsAs ShapeFault.NoMemory (λ e. e) result (entity_of (view value.now)) }
{
    let Some(uid) = value.get("uid") else {
        return Err(ShapeFault::BadShape);
    };
    let uid = read_uid(alloc, uid)?;
    if !is_bare(value) {
        return Err(ShapeFault::BadShape);
    }
    let (uid, parents) = pair_with(uid, read_parents(alloc, value.get("parents")))?;
    Ok(Entity {
        uid,
        attrs: Record::new(alloc),
        parents,
    })
}
