//! The canonical text of an entity, written token by token: no JSON value is built.
ghost use Rattle.std.specs.Prelude.{◌≡◌, ◌≤◌, IfOk, OnOk, Some, map};
ghost use Rattle.serde_json.specs.Data.{array, depth};
ghost use Rattle.serde_json.specs.Read.{max_depth};
ghost use Rattle.serde_json.specs.View.{items_of};
ghost use Rattle.json_words.specs.Json.{json_of};
ghost use Rattle.entity_data.specs.ancestor_search.Hierarchy.{IsAscending};
ghost use Rattle.entity_uids.specs.Tokens.{AppendsValue};
ghost use Rattle.entity_uids.specs.Uids.{uid_json};
ghost use Rattle.entities.specs.Canonical.{canonical_json, canonical_text};

use crate::value_writing::write_record;
use entity_data::Entity;
use entity_uids::write_uid;
use json::Writer;
use plain::NoMemory;
use std::alloc::Global;
use values::EntityUid;

/// The capacity in bytes that is reserved for a text before it is written. For a text of at most this length the buffer
/// does not grow.
const INITIAL_CAPACITY: usize = 128;

/// Writes the uids of parents as an array.
fn write_parents(out: &mut Writer, parents: &[EntityUid]) -> Result<(), NoMemory>
    ensures { OnOk result (AppendsValue out.old out.new (array (items_of (map uid_json parents.now)))) }
{
    out.begin_array()?;
    for parent in parents {
        write_uid(out, parent)?;
    }
    out.end_array()
}

/// Writes the canonical JSON of an entity.
fn write_members(alloc: Global, out: &mut Writer, entity: &Entity) -> Result<(), NoMemory>
    ensures { OnOk result (AppendsValue out.old out.new (canonical_json entity.now)) }
{
    out.begin_object()?;
    out.key("attrs")?;
    write_record(alloc, out, &entity.attrs)?;
    out.key("parents")?;
    write_parents(out, entity.parents.members())?;
    out.key("uid")?;
    write_uid(out, &entity.uid)?;
    out.end_object()
}

/// Returns the canonical text of an entity, which is compact JSON:
/// `{"attrs":{"age":1},"parents":[],"uid":{"id":"a","type":"User"}}`. The parents ascend, without repeats. The only
/// error is `NoMemory`.
pub fn canonical_text(alloc: Global, entity: &Entity) -> Result<Vec<u8>, NoMemory>
    ensures text { IfOk result (λ b. b.items ≡ canonical_text entity.now) }
    ensures reads_back { IfOk result (λ b. depth (canonical_json entity.now) ≤ max_depth
        → json_of b.items ≡ Some (canonical_json entity.now)) }
    ensures ascending { IsAscending entity.now.parents }
{
    // the contract of `members` states that the parents ascend
    let _ascending = entity.parents.members();
    let mut out = Writer::new(Vec::with_capacity(alloc, INITIAL_CAPACITY)?);
    write_members(alloc, &mut out, entity)?;
    Ok(out.into_inner())
}
