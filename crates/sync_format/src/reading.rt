//! The parsing of a state or a delta, with the texts of its bodies.
ghost use Rattle.std.specs.Prelude.{◌≡◌, List, IfOk, IfErr, map};
ghost use Rattle.stamped_store.specs.Store.{issued, policy_name, entity_name};
ghost use Rattle.stamped_store.specs.Raised.{NumberedUpdate, raise};
ghost use Rattle.sync_format.specs.declared.fault.MessageFault.TheVariants as MessageFault;
ghost use Rattle.sync_format.specs.declared.bodies.BodyFault.TheVariants as BodyFault;
ghost use Rattle.plain.specs.AllocationErrors.{OrNoMemory};
ghost use Rattle.sync_format.specs.Numbered.{IsVersion1Message};
ghost use Rattle.sync_format.specs.Updates.{plain_updates, IsFaultAt, IsMessageFault};
ghost use Rattle.sync_format.specs.Updates.{fault_at as message_fault, IsMessage, IsBodyRefused, IsUnreadable};
ghost use Rattle.sync_format.specs.inner.Reading.{stated_update, IsBodyReadAs, IsReadAs, IsReadInRange};
ghost use Rattle.sync_format.specs.inner.Reading.{AreReadInRange, IsFirstUpdateFault};

use crate::fault::MessageFault;
use crate::laws::messages_are_raised;
use crate::stated::{ReadEntry, read_stated};
use crate::summary_laws::stamps_read_back;
use crate::summary_reading::check_stamp;
use crate::{Bodies, BodyFault, Update};
use json_words::Scratch;
use plain::{Text, pair_with};
use stamped_store::{Entry, ReadText, Stamp};
use std::alloc::Global;
use std::collections::VecDeque;
use values::{EntityUid, Name};

/// Returns the body of a policy: the text with its parsed value, or `None` for a tombstone.
fn policy_body<P: Drop, E: Drop, B: Bodies<P, E>>(
    alloc: Global,
    bodies: &B,
    id: &Text,
    body: Option<Text>,
) -> Result<Option<ReadText<P>>, BodyFault>
    ensures read { IfOk result (IsBodyReadAs (B.reads_policy bodies.now id.now) body) }
    ensures refused { IfErr result
        (OrNoMemory BodyFault.NoMemory (IsBodyRefused (B.refuses_policy bodies.now id.now) body)) }
{
    let Some(text) = body else {
        return Ok(None);
    };
    let read = bodies.read_policy(alloc, id.as_str(), text.as_str())?;
    Ok(Some(ReadText { text, read }))
}

/// Returns the body of an entity: the text with its parsed value, or `None` for a tombstone.
fn entity_body<P: Drop, E: Drop, B: Bodies<P, E>>(
    alloc: Global,
    bodies: &B,
    scratch: &mut Scratch,
    uid: &EntityUid,
    body: Option<Text>,
) -> Result<Option<ReadText<E>>, BodyFault>
    ensures read { IfOk result (IsBodyReadAs (B.reads_entity bodies.now uid.now) body) }
    ensures refused { IfErr result
        (OrNoMemory BodyFault.NoMemory (IsBodyRefused (B.refuses_entity bodies.now uid.now) body)) }
{
    let Some(text) = body else {
        return Ok(None);
    };
    let read = bodies.read_entity(alloc, scratch, uid, text.as_str())?;
    Ok(Some(ReadText { text, read }))
}

/// Returns the update of a policy with its text parsed, or the error of the text.
fn read_policy<P: Drop, E: Drop, B: Bodies<P, E>>(
    alloc: Global,
    bodies: &B,
    id: Text,
    stamp: Stamp,
    body: Option<Text>,
) -> Result<Update<P, E>, BodyFault>
    ensures read { IfOk result
        (IsReadAs (B.reads_policy bodies.now) (B.reads_entity bodies.now) (policy_name id, issued stamp body)) }
    ensures refused { IfErr result
        (OrNoMemory BodyFault.NoMemory (IsBodyRefused (B.refuses_policy bodies.now id) body)) }
{
    let body = policy_body(alloc, bodies, &id, body)?;
    let entry = Entry { stamp, body };
    Ok(Update::Policy { id, entry })
}

/// Returns the update of an entity with its text parsed, or the error of the text.
fn read_entity<P: Drop, E: Drop, B: Bodies<P, E>>(
    alloc: Global,
    bodies: &B,
    scratch: &mut Scratch,
    uid: EntityUid,
    stamp: Stamp,
    body: Option<Text>,
) -> Result<Update<P, E>, BodyFault>
    ensures read { IfOk result
        (IsReadAs (B.reads_policy bodies.now) (B.reads_entity bodies.now) (entity_name uid, issued stamp body)) }
    ensures refused { IfErr result
        (OrNoMemory BodyFault.NoMemory (IsBodyRefused (B.refuses_entity bodies.now uid) body)) }
{
    let body = entity_body(alloc, bodies, scratch, &uid, body)?;
    let entry = Entry { stamp, body };
    Ok(Update::Entity { uid, entry })
}

/// Returns the update that an entry describes with its text parsed, or the error of the text.
fn read_update<P: Drop, E: Drop, B: Bodies<P, E>>(
    alloc: Global,
    bodies: &B,
    scratch: &mut Scratch,
    stated: ReadEntry,
) -> Result<Update<P, E>, BodyFault>
    ensures read { IfOk result
        (IsReadAs (B.reads_policy bodies.now) (B.reads_entity bodies.now) (stated_update stated)) }
    ensures refused { IfErr result (OrNoMemory BodyFault.NoMemory
        (IsUnreadable (B.refuses_policy bodies.now) (B.refuses_entity bodies.now) stated.stamped.0 stated.body)) }
{
    let ReadEntry { stamped, body } = stated;
    let (name, stamp) = stamped;
    match name {
        Name::Policy(id) => read_policy(alloc, bodies, id, stamp, body),
        Name::Entity(uid) => read_entity(alloc, bodies, scratch, uid, stamp, body),
    }
}

/// Returns the message's error for the error of the body of the entry at the index `place`.
fn fault_at(place: usize, fault: BodyFault) -> MessageFault
    ensures { result ≡ message_fault place fault }
{
    match fault {
        BodyFault::NoMemory => MessageFault::NoMemory,
        BodyFault::Refused(within) => MessageFault::BadEntry(place, within),
        BodyFault::OtherName => MessageFault::BodyOfOtherName(place),
    }
}

/// Returns the update of the entry at the index `place`, or its first error. Checks its ranges, then parses its text.
fn read_at<P: Drop, E: Drop, B: Bodies<P, E>>(
    alloc: Global,
    bodies: &B,
    scratch: &mut Scratch,
    place: usize,
    stated: ReadEntry,
) -> Result<Update<P, E>, MessageFault>
    ensures read { IfOk result
        (IsReadInRange (B.reads_policy bodies.now) (B.reads_entity bodies.now) place (stated_update stated)) }
    ensures refused { IfErr result (OrNoMemory MessageFault.NoMemory
        (IsFaultAt (B.refuses_policy bodies.now) (B.refuses_entity bodies.now) place (stated_update stated))) }
{
    let checked_stamp = check_stamp(place, &stated.stamped);
    let (stated, ()) = pair_with(stated, checked_stamp)?;
    match read_update(alloc, bodies, scratch, stated) {
        Ok(update) => Ok(update),
        Err(fault) => Err(fault_at(place, fault)),
    }
}

/// Returns the updates of the entries, checked and parsed in turn, or the first error.
fn read_all<P: Drop, E: Drop, B: Bodies<P, E>>(
    alloc: Global,
    bodies: &B,
    scratch: &mut Scratch,
    entries: Vec<ReadEntry>,
) -> Result<Vec<Update<P, E>>, MessageFault>
    ensures read { IfOk result (λ us. AreReadInRange (B.reads_policy bodies.now) (B.reads_entity bodies.now) 0
        (map stated_update entries.items) us.items) }
    ensures refused { IfErr result (OrNoMemory MessageFault.NoMemory (IsFirstUpdateFault (B.reads_policy bodies.now)
        (B.reads_entity bodies.now) (B.refuses_policy bodies.now) (B.refuses_entity bodies.now) 0
        (map stated_update entries.items))) }
{
    let count = entries.len();
    let mut updates = Vec::with_capacity(alloc, count)?;
    let mut rest = VecDeque::from_vec(entries);
    for place in 0..count {
        let Some(entry) = rest.pop_front() else {
            unreachable!();
        };
        let update = read_at(alloc, bodies, scratch, place, entry)?;
        updates.push(update)?;
    }
    Ok(updates)
}

/// Parses a state or a delta under the schema with this label.
///
/// Returns its updates in their order, each text parsed. Names may be in any order, and may repeat. In version 1 a site
/// is a number, which becomes the name of five digits: 7 becomes `00007`.
///
/// # Errors
///
/// In this order; the message is then rejected whole:
///
/// - `NotJson` (50): the bytes are not JSON.
/// - `BadShape` (51): there is no `version` that is an integer in unsigned 64 bits.
/// - `Version` (53): the version is neither 1 nor 2.
/// - `BadShape` (51): the rest has another shape, entries included.
/// - `OtherSchema` (52): the label is that of another schema.
/// - Then entry by entry: `CountRange` (54), the count is 0 or over 10^18; `BadEntry` (55), a policy's id does not have
///   1 to 256 bytes (19), or the body is rejected, with the code of the inner error; `BodyOfOtherName` (56), the body
///   is of another entity.
/// - `NoMemory` (1): an allocation failed; possible at any point.
pub fn read_message_by<P: Drop, E: Drop, B: Bodies<P, E>>(
    alloc: Global,
    label: &str,
    bodies: &B,
    bytes: &[u8],
) -> Result<Vec<Update<P, E>>, MessageFault>
    ensures read { IfOk result (λ us. IsMessage (B.reads_policy bodies.now) (B.reads_entity bodies.now)
        label.now bytes.now us.items) }
    ensures raised { IfOk result (λ us. (ns : List NumberedUpdate) → IsVersion1Message label.now bytes.now ns
        → plain_updates us.items ≡ raise ns) }
    ensures refused { IfErr result (OrNoMemory MessageFault.NoMemory (IsMessageFault (B.reads_policy bodies.now)
        (B.reads_entity bodies.now) (B.refuses_policy bodies.now) (B.refuses_entity bodies.now) label.now bytes.now)) }
{
    messages_are_raised();
    stamps_read_back();
    let mut scratch = Scratch::new(alloc);
    let entries = read_stated(alloc, &mut scratch, label, bytes)?;
    read_all(alloc, bodies, &mut scratch, entries)
}
