//! Parsing of arrays of entities.
ghost use Rattle.std.specs.Prelude.{◌≡◌, ◌<◌, ◌^◌, List, length, None, Ok, Err, IfErr, OnOk};
ghost use Rattle.serde_json.specs.View.{view};
ghost use Rattle.json_words.specs.ReadsAs.{ReadsAs};
ghost use Rattle.json_words.specs.Arrays.{unread_members, each_of, reported_error};
ghost use Rattle.entity_data.specs.declared.entity.Entity.{Entity as Stated};
ghost use Rattle.plain.specs.AllocationErrors.{OrNoMemory};
ghost use Rattle.answer_lines.specs.Refusals.{no_memory, bad_shape};
ghost use Rattle.decision_texts.specs.EntityArrays.{placed, entity_at, entities_of};
ghost use Rattle.decision_texts.specs.inner.Stores.{Holds, KeepsNext, ReadsStore};

use crate::setting::Setting;
use answer_lines::Refusal;
use entity_data::{Entity, EntityStore};
use json_words::{ArrayMembers, Member, Scratch, members_of};
use serde_json::Value;
use std::alloc::Global;

/// Returns the entity that `value`, the item of the array at the index `place`, describes. An error other than
/// `NoMemory` has this index as its place.
fn read_entity_at<S: Setting>(
    alloc: Global,
    setting: &S,
    value: &Value,
    place: usize,
) -> Result<Entity, Refusal>
    ensures { ReadsAs no_memory (λ e. e) result
        (placed place ((S.reading setting.now).entity (view value.now))) }
{
    match setting.read_entity(alloc, value) {
        Ok(entity) => Ok(entity),
        Err(refusal) => Err(refusal.error_placed_at(place)),
    }
}

/// Adds to the store the entity that `value`, the item of the array at the index `place`, describes. Drops the value
/// before the store grows. Returns the entity's error, or 30 (bad shape) if the store has its uid.
fn keep_entity<S: Setting>(
    alloc: Global,
    setting: &S,
    store: &mut EntityStore,
    value: Value,
    place: usize,
) -> Result<(), Refusal>
    ensures { (es : List Stated) → Holds store.old es →
        KeepsNext (S.reading setting.now) es place (view value) result store.new }
{
    let read = read_entity_at(alloc, setting, &value, place);
    drop(value);
    let entity = read?;
    if !store.put(entity)? {
        return Err(Refusal::bad_shape(Some(place)));
    }
    Ok(())
}

/// Returns `refusal`, the error of a member of the array, if the rest of the text completes the JSON array. If it does
/// not, the error is 30 (bad shape) without a place; if an allocation fails, `NoMemory`.
fn if_json(alloc: Global, members: &mut ArrayMembers<'_>, refusal: Refusal) -> Refusal
    ensures { (result ≡ no_memory → ⊥) → result ≡ reported_error (bad_shape None) refusal (unread_members members.old) }
{
    match members.rest_is_json(alloc) {
        Ok(true) => refusal,
        Ok(false) => Refusal::bad_shape(None),
        Err(_) => Refusal::no_memory(),
    }
}

/// Returns the entities of an array, or the first error; a repeated uid is an error. One member's JSON is in memory at
/// a time. `members` has fewer than 2^63 JSON tokens left, so that the index of an entity does not overflow.
fn read_array<S: Setting>(
    alloc: Global,
    setting: &S,
    members: &mut ArrayMembers<'_>,
) -> Result<EntityStore, Refusal>
    requires { length members.old.reader < 2 ^ 63 }
    ensures { ReadsStore result
        (each_of (bad_shape None) (entity_at (S.reading setting.now)) (unread_members members.old)) }
{
    let mut store = EntityStore::new(alloc);
    let mut place = 0;
    'members: loop {
        match members.next(alloc)? {
            Member::Value(value) => {
                if let Err(refusal) = keep_entity(alloc, setting, &mut store, value, place) {
                    return Err(if_json(alloc, members, refusal));
                }
            }
            Member::End => return Ok(store),
            Member::NotJson => return Err(Refusal::bad_shape(None)),
        }
        place += 1;
    }
}

/// Returns the entities of the JSON array in a text, or the first error.
pub(crate) fn read_entities<S: Setting>(
    alloc: Global,
    setting: &S,
    text: &[u8],
) -> Result<EntityStore, Refusal>
    ensures { ReadsStore result (entities_of (S.reading setting.now) text.now) }
{
    let mut scratch = Scratch::new(alloc);
    match members_of(&mut scratch, text)? {
        Some(mut members) => read_array(alloc, setting, &mut members),
        None => Err(Refusal::bad_shape(None)),
    }
}

/// Checks that a text is a JSON array of entities with distinct uids.
///
/// # Errors
///
/// - 30 (bad shape), without a place: the text is not a JSON array.
/// - The error of the first rejected entity, at its index in the array, from 0: that of the entity itself, or 30 if an
///   earlier entity has its uid.
/// - `NoMemory` (1): an allocation failed; possible at any point.
pub fn check_entities<S: Setting>(alloc: Global, setting: &S, text: &[u8]) -> Result<(), Refusal>
    ensures read { OnOk result ((es : List Stated) × (entities_of (S.reading setting.now) text.now ≡ Ok es)) }
    ensures refused { IfErr result
        (OrNoMemory no_memory (λ r. entities_of (S.reading setting.now) text.now ≡ Err r)) }
{
    match read_entities(alloc, setting, text) {
        Ok(_) => Ok(()),
        Err(refusal) => Err(refusal),
    }
}
