//! Puts the entities of an array into a site, one after another.
ghost use Rattle.std.specs.Prelude.{◌≡◌, ◌<◌, ◌^◌, List, length, map, Some, IfErr, OnOk};
ghost use Rattle.serde_json.specs.Data.{Data};
ghost use Rattle.serde_json.specs.View.{view};
ghost use Rattle.json_words.specs.Arrays.{unread_members};
ghost use Rattle.site.specs.SiteViews.{schema_of, store_in, IsSameSite};
ghost use Rattle.plain.specs.AllocationErrors.{OrNoMemory};
ghost use Rattle.schema_decisions.specs.answer_lines.Refusals.{no_memory};
ghost use Rattle.site_loading.specs.Puts.{entity_put, Accepts, AcceptsAll, RefusesAt, RefusesFirst};
ghost use Rattle.site_loading.specs.Loads.{LoadsEntities, RefusesEntities};

use crate::refusal::put_refusal;
use json_words::{ArrayMembers, Member, Scratch, members_of};
use schema_decisions::{Refusal, UnderSchema, check_entities};
use serde_json::Value;
use site::Site;
use std::alloc::Global;

/// Puts one entity. An error other than `NoMemory` is returned with the index `place`.
fn put_entity(site: &mut Site, place: usize, value: &Value) -> Result<(), Refusal>
    ensures accepted { OnOk result (Accepts (schema_of site.old) site.old.name (store_in site.old)
        (entity_put (view value.now)) (store_in site.new)) }
    ensures refused { IfErr result (OrNoMemory no_memory
        (RefusesAt (schema_of site.old) site.old.name (store_in site.old)
        place (entity_put (view value.now)))) }
    ensures same { IsSameSite site.old site.new }
{
    match site.put_entity(value) {
        Ok(_) => Ok(()),
        Err(fault) => Err(put_refusal(place, fault)),
    }
}

/// Puts the remaining entities of an array, in their order, up to the first that is rejected. The earlier puts remain.
/// The unread text must be the rest of a JSON array, with fewer than 2^63 JSON tokens.
fn put_each(alloc: Global, site: &mut Site, members: &mut ArrayMembers<'_>) -> Result<(), Refusal>
    requires few { length members.old.reader < 2 ^ 63 }
    requires json { (ds : List Data) × (unread_members members.old ≡ Some ds) }
    ensures accepted { (ds : List Data) → unread_members members.old ≡ Some ds →
        OnOk result (AcceptsAll (schema_of site.old) site.old.name (store_in site.old) (map entity_put ds)
        (store_in site.new)) }
    ensures refused { (ds : List Data) → unread_members members.old ≡ Some ds →
        IfErr result (OrNoMemory no_memory (RefusesFirst (schema_of site.old) site.old.name (store_in site.old) 0
        (map entity_put ds))) }
    ensures same { IsSameSite site.old site.new }
{
    let mut place = 0;
    'members: loop {
        match members.next(alloc)? {
            Member::Value(value) => put_entity(site, place, &value)?,
            Member::End => return Ok(()),
            Member::NotJson => unreachable!(),
        }
        place += 1;
    }
}

/// Puts the entities of an array into a site, one after another. Parses the array twice: to check it as a whole, and to
/// put its entities. Each time only one member's JSON value is in memory.
///
/// # Errors
///
/// In this order:
///
/// - 30 to 38, at the entity's index in the array: the first error of the array, as for a decision; 30 without an index
///   if the bytes are not an array.
/// - The error of the first rejected put, at the entity's index; the earlier puts remain.
/// - `NoMemory` (1): an allocation failed; possible at any point.
pub(crate) fn load_entities(alloc: Global, site: &mut Site, bytes: &[u8]) -> Result<(), Refusal>
    ensures loaded { OnOk result (LoadsEntities (schema_of site.old) site.old.name (store_in site.old) bytes.now
        (store_in site.new)) }
    ensures refused { IfErr result (OrNoMemory no_memory (RefusesEntities (schema_of site.old) site.old.name
        (store_in site.old) bytes.now)) }
    ensures same { IsSameSite site.old site.new }
{
    let schema = site.schema();
    check_entities(alloc, &UnderSchema { schema }, bytes)?;
    let mut scratch = Scratch::new(alloc);
    let Some(mut members) = members_of(&mut scratch, bytes)? else {
        unreachable!();
    };
    put_each(alloc, site, &mut members)
}
