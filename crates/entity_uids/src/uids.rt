//! Uids as JSON.
ghost use Rattle.std.specs.Prelude.{◌≡◌, IfOk, MatchOption, map};
ghost use Rattle.plain.specs.Words.{IsPath};
ghost use Rattle.serde_json.specs.View.{view};
ghost use Rattle.entity_uids.specs.Uids.{IsPlainUid, IsUid, IsRead, uid_in, uids_in};

use crate::laws::names_read_back;
use crate::spelling::two_texts;
use json_words::{only_keys, text_at};
use plain::{Items, NoMemory};
use serde_json::Value;
use std::alloc::Global;
use values::{EntityUid, SharedText, TypeName};

/// Returns the entity with this type and id; `None` if the type is not a Path.
fn uid_of(alloc: Global, type_name: &str, id: &str) -> Result<Option<EntityUid>, NoMemory>
    ensures { IfOk result (λ o. MatchOption o (IsPath type_name.now → ⊥)
        (λ u. IsPath type_name.now × (u.type_name ≡ type_name.now) × (u.id ≡ id.now))) }
{
    let Some(type_name) = TypeName::parse(alloc, type_name)? else {
        return Ok(None);
    };
    let id = SharedText::from_str(alloc, id)?;
    Ok(Some(EntityUid { type_name, id }))
}

/// Returns the entity that a value names as an object with exactly the keys `type` and `id`; `None` if it names none.
fn read_plain_uid(alloc: Global, value: &Value) -> Result<Option<EntityUid>, NoMemory>
    ensures { IfOk result (IsRead (IsPlainUid (view value.now))) }
{
    if !only_keys(value, &["type", "id"]) {
        return Ok(None);
    }
    let Some(type_name) = text_at(value, "type") else {
        return Ok(None);
    };
    let Some(id) = text_at(value, "id") else {
        return Ok(None);
    };
    let Some(type_name) = TypeName::parse(alloc, type_name)? else {
        return Ok(None);
    };
    let id = SharedText::from_str(alloc, id)?;
    Ok(Some(EntityUid { type_name, id }))
}

/// Returns the entity that a value names, in one of the two forms of [`read_uid`]; `None` if it names none.
#[tactic(auto, using(crate::proofs::UidLemmas::plain, crate::proofs::UidLemmas::under_entity))]
fn read_either(alloc: Global, value: &Value) -> Result<Option<EntityUid>, NoMemory>
    ensures { IfOk result (IsRead (IsUid (view value.now))) }
{
    if let Some((id, type_name)) = two_texts(value, "id", "type") {
        return uid_of(alloc, type_name, id);
    }
    match value.get("__entity") {
        None => read_plain_uid(alloc, value),
        Some(inner) => {
            if !only_keys(value, &["__entity"]) {
                return Ok(None);
            }
            read_plain_uid(alloc, inner)
        }
    }
}

/// Returns the entity that a value names, as `{"type": .., "id": ..}` or as this object under the key `__entity`.
/// `None` if the value has another shape or key, or the type is not a Path. The only error is `NoMemory`.
#[tactic(auto, using(crate::proofs::FoundLemmas::same))]
pub fn read_uid(alloc: Global, value: &Value) -> Result<Option<EntityUid>, NoMemory>
    ensures names { IfOk result (IsRead (IsUid (view value.now))) }
    ensures found { IfOk result (λ o. o ≡ uid_in (view value.now)) }
{
    names_read_back();
    read_either(alloc, value)
}

/// Returns this uid. If the last of `uids` has the same type, the result shares that uid's string of the type.
fn like_last(uids: &[EntityUid], uid: EntityUid) -> Result<EntityUid, NoMemory>
    ensures { IfOk result (λ u. u ≡ uid) }
{
    let Some(last) = uids.last() else {
        return Ok(uid);
    };
    if !last.type_name.same(&uid.type_name) {
        return Ok(uid);
    }
    let type_name = last.type_name.copy()?;
    let EntityUid { type_name: _, id } = uid;
    Ok(EntityUid { type_name, id })
}

/// Returns the entity that a value names, sharing the type with the last of `uids` as [`like_last`] does. `None` if the
/// value names no entity.
fn read_next(
    alloc: Global,
    uids: &[EntityUid],
    value: &Value,
) -> Result<Option<EntityUid>, NoMemory>
    ensures { IfOk result (λ o. o ≡ uid_in (view value.now)) }
{
    match read_uid(alloc, value)? {
        Some(uid) => Ok(Some(like_last(uids, uid)?)),
        None => Ok(None),
    }
}

/// Returns the entities that the values name, each as [`read_uid`] parses it, in order and with repeats. `None` if any
/// value names no entity. Neighbours of one type share the type's string. The only error is `NoMemory`.
pub fn read_uids(alloc: Global, values: &[Value]) -> Result<Option<Items<EntityUid>>, NoMemory>
    ensures { IfOk result (λ o. o ≡ uids_in (map view values.now)) }
{
    let mut uids = Vec::with_capacity(alloc, values.len())?;
    for value in values {
        match read_next(alloc, uids.as_slice(), value)? {
            Some(uid) => uids.push(uid)?,
            None => return Ok(None),
        }
    }
    Ok(Some(Items::from_vec(uids)))
}
