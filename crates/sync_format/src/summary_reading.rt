//! The parsing of a summary, and of the names and stamps in all messages.
ghost use Rattle.std.specs.Prelude.{◌≡◌, true, IfOk};
ghost use Rattle.std.specs.Ordering.{is_lt};
ghost use Rattle.serde_json.specs.View.{view, items_view};
ghost use Rattle.json_words.specs.ReadsAs.{ReadsAs, AlwaysReadsAs};
ghost use Rattle.json_words.specs.Each.{each};
ghost use Rattle.values.specs.Names.{name_cmp};
ghost use Rattle.sync_format.specs.declared.fault.MessageFault.TheVariants as MessageFault;
ghost use Rattle.sync_format.specs.Summaries.{ascend as ascends, number_at as number_of, policy_in, entity_name_in};
ghost use Rattle.sync_format.specs.Summaries.{name_in, version_in, numbered_in, raised_in, named_in, site_in};
ghost use Rattle.sync_format.specs.Summaries.{stamped_in, stamp_in, stamps_of, stamps_in};
ghost use Rattle.sync_format.specs.Summaries.{is_name_in_range as has_id, checked_stamp};
ghost use Rattle.sync_format.specs.Summaries.{summary_in, summary_stated};

use crate::fault::MessageFault;
use crate::summary::Summary;
use crate::version::MessageVersion;
use entity_uids::{MOST_ID_BYTES, read_uid};
use json_words::{only_keys, read_json, text_at};
use plain::Text;
use serde_json::Value;
use stamped_store::{COUNT_MAX, SiteName, Stamp, is_site_name};
use std::alloc::Global;
use values::Name;

/// Returns the integer in unsigned 64 bits at a key of an object; `BadShape` if the key is absent or has another value.
/// Does not allocate.
fn number_at(value: &Value, key: &str) -> Result<u64, MessageFault>
    ensures { AlwaysReadsAs (λ n. n) result (number_of key.now (view value.now)) }
{
    match value.get(key) {
        Some(found) => match found.as_u64() {
            Some(number) => Ok(number),
            None => Err(MessageFault::BadShape),
        },
        None => Err(MessageFault::BadShape),
    }
}

/// Returns the name of a policy that an object describes; `BadShape` if it describes none.
#[tactic(auto, unfolding(crate::specs::Summaries::policy_in))]
fn read_policy(alloc: Global, value: &Value) -> Result<Name, MessageFault>
    ensures { ReadsAs MessageFault.NoMemory (λ n. n) result (policy_in (view value.now)) }
{
    let Some(id) = text_at(value, "policy") else {
        return Err(MessageFault::BadShape);
    };
    Ok(Name::Policy(Text::from_str(alloc, id)?))
}

/// Returns the name of an entity that an object describes; `BadShape` if it describes none.
#[tactic(auto, unfolding(crate::specs::Summaries::entity_name_in))]
fn read_entity(alloc: Global, value: &Value) -> Result<Name, MessageFault>
    ensures { ReadsAs MessageFault.NoMemory (λ n. n) result (entity_name_in (view value.now)) }
{
    if !only_keys(value, &["entity"]) {
        return Err(MessageFault::BadShape);
    }
    let Some(found) = value.get("entity") else {
        return Err(MessageFault::BadShape);
    };
    if !only_keys(found, &["id", "type"]) {
        return Err(MessageFault::BadShape);
    }
    match read_uid(alloc, found)? {
        Some(uid) => Ok(Name::Entity(uid)),
        None => Err(MessageFault::BadShape),
    }
}

/// Returns the name that an object describes; `BadShape` if it describes none.
#[tactic(auto, unfolding(crate::specs::Summaries::name_in))]
fn read_name(alloc: Global, value: &Value) -> Result<Name, MessageFault>
    ensures { ReadsAs MessageFault.NoMemory (λ n. n) result (name_in (view value.now)) }
{
    if only_keys(value, &["policy"]) {
        return read_policy(alloc, value);
    }
    read_entity(alloc, value)
}

/// Returns the version of a message. Does not allocate.
///
/// # Errors
///
/// - `BadShape` (51): there is no `version` that is an integer in unsigned 64 bits.
/// - `Version` (53): the version is neither 1 nor 2.
#[tactic(auto, unfolding(crate::specs::Summaries::version_in))]
pub fn read_version(value: &Value) -> Result<MessageVersion, MessageFault>
    ensures { AlwaysReadsAs (λ v. v) result (version_in (view value.now)) }
{
    let version = number_at(value, "version")?;
    if version == 1 {
        return Ok(MessageVersion::One);
    }
    if version == 2 {
        return Ok(MessageVersion::Two);
    }
    Err(MessageFault::Version)
}

/// Returns the number at an object's key `site`; `BadShape` if there is no number from 1 to 65,535.
#[tactic(auto, unfolding(crate::specs::Summaries::numbered_in))]
fn read_number(value: &Value) -> Result<u16, MessageFault>
    ensures { AlwaysReadsAs (λ n. n) result (numbered_in (view value.now)) }
{
    let site = number_at(value, "site")?;
    if !(1 <= site && site <= 65535) {
        return Err(MessageFault::BadShape);
    }
    Ok(site as u16)
}

/// Returns the site whose number is at an object's key `site`; its name is the five digits of the number. Returns
/// `BadShape` if there is no such number.
#[tactic(auto, unfolding(crate::specs::Summaries::raised_in))]
fn read_numbered(value: &Value) -> Result<SiteName, MessageFault>
    ensures { AlwaysReadsAs (λ n. n) result (raised_in (view value.now)) }
{
    let number = read_number(value)?;
    Ok(SiteName::from_number(number))
}

/// Returns the site whose name is at an object's key `site`; `BadShape` if there is no site name.
#[tactic(auto, unfolding(crate::specs::Summaries::named_in))]
fn read_named(value: &Value) -> Result<SiteName, MessageFault>
    ensures { AlwaysReadsAs (λ n. n) result (named_in (view value.now)) }
{
    let Some(site) = text_at(value, "site") else {
        return Err(MessageFault::BadShape);
    };
    if !is_site_name(site) {
        return Err(MessageFault::BadShape);
    }
    Ok(SiteName::new(site))
}

/// Returns the site at an object's key `site`, in the form of the message's version; `BadShape` if there is none.
fn read_site(version: MessageVersion, value: &Value) -> Result<SiteName, MessageFault>
    ensures { AlwaysReadsAs (λ n. n) result (site_in version (view value.now)) }
{
    match version {
        MessageVersion::One => read_numbered(value),
        MessageVersion::Two => read_named(value),
    }
}

/// Returns the name and the stamp that an object has at its keys `count`, `name` and `site`, and ignores other keys.
///
/// A count is an integer in unsigned 64 bits; a name is a policy's id or an entity's uid. In version 1 a site is a
/// number from 1 to 65,535, whose five digits are the site's name; in version 2 a site is its name.
///
/// # Errors
///
/// - `BadShape` (51): a key is missing, or has another value.
/// - `NoMemory` (1): an allocation failed; possible at any point.
#[tactic(auto, unfolding(crate::specs::Summaries::stamped_in, crate::specs::Summaries::stamped_by))]
pub fn read_stamped(
    alloc: Global,
    version: MessageVersion,
    value: &Value,
) -> Result<(Name, Stamp), MessageFault>
    ensures { ReadsAs MessageFault.NoMemory (λ u. u) result (stamped_in version (view value.now)) }
{
    let count = number_at(value, "count")?;
    let site = read_site(version, value)?;
    let stamp = Stamp { count, site };
    let Some(found) = value.get("name") else {
        return Err(MessageFault::BadShape);
    };
    let name = read_name(alloc, found)?;
    Ok((name, stamp))
}

/// Returns the name and the stamp that an object has; other keys are an error.
#[tactic(auto, unfolding(crate::specs::Summaries::stamp_in))]
fn read_stamp(
    alloc: Global,
    version: MessageVersion,
    value: &Value,
) -> Result<(Name, Stamp), MessageFault>
    ensures { ReadsAs MessageFault.NoMemory (λ u. u) result (stamp_in version (view value.now)) }
{
    if !only_keys(value, &["count", "name", "site"]) {
        return Err(MessageFault::BadShape);
    }
    read_stamped(alloc, version, value)
}

/// Returns the names and stamps that the values describe, or the first error.
fn read_each(
    alloc: Global,
    version: MessageVersion,
    values: &[Value],
) -> Result<Vec<(Name, Stamp)>, MessageFault>
    ensures { ReadsAs MessageFault.NoMemory (λ us. us.items) result (stamps_of version (items_view values.now)) }
{
    let mut stamps = Vec::with_capacity(alloc, values.len())?;
    for value in values {
        let stamp = read_stamp(alloc, version, value)?;
        stamps.push(stamp)?;
    }
    Ok(stamps)
}

/// Returns whether a name is less than another.
fn comes_before(first: &Name, second: &Name) -> bool
    ensures { result ≡ is_lt (name_cmp first.now second.now) }
{
    first.cmp(second).is_lt()
}

/// Returns whether the names of the stamps ascend strictly.
fn ascend(stamps: &[(Name, Stamp)]) -> bool
    ensures { result ≡ ascends stamps.now }
{
    for place in 1..stamps.len() {
        if !comes_before(&stamps[place - 1].0, &stamps[place].0) {
            return false;
        }
    }
    true
}

/// Returns the names and stamps of a summary; names that do not ascend strictly are an error.
#[tactic(auto, unfolding(crate::specs::Summaries::stamps_in))]
fn read_stamps(
    alloc: Global,
    version: MessageVersion,
    value: &Value,
) -> Result<Vec<(Name, Stamp)>, MessageFault>
    ensures stamps { ReadsAs MessageFault.NoMemory (λ us. us.items) result (stamps_in version (view value.now)) }
    ensures ascending { IfOk result (λ us. ascends us.items ≡ true) }
{
    let Some(found) = value.get("stamps") else {
        return Err(MessageFault::BadShape);
    };
    let Some(list) = found.as_array() else {
        return Err(MessageFault::BadShape);
    };
    let stamps = read_each(alloc, version, list)?;
    if !ascend(&stamps) {
        return Err(MessageFault::BadShape);
    }
    Ok(stamps)
}

/// Returns whether a name is an entity's uid, or a policy's id of 1 to 256 bytes.
fn has_id(name: &Name) -> bool
    ensures { result ≡ has_id name.now }
{
    match name {
        Name::Policy(id) => 1 <= id.len() && id.len() <= MOST_ID_BYTES,
        Name::Entity(_) => true,
    }
}

/// Checks the ranges of the name and the stamp at the index `place`. Does not allocate.
///
/// # Errors
///
/// In this order:
///
/// - `CountRange` (54): the count is not from 1 to 10^18.
/// - `BadEntry` (55), with code 19 within: a policy's id does not have 1 to 256 bytes.
#[tactic(auto, unfolding(crate::specs::Summaries::checked_stamp))]
pub fn check_stamp(place: usize, stamp: &(Name, Stamp)) -> Result<(), MessageFault>
    ensures { AlwaysReadsAs (λ u. stamp.now) result (checked_stamp place stamp.now) }
{
    if !(1 <= stamp.1.count && stamp.1.count <= COUNT_MAX) {
        return Err(MessageFault::CountRange(place));
    }
    if !has_id(&stamp.0) {
        return Err(MessageFault::BadEntry(place, 19));
    }
    Ok(())
}

/// Checks the ranges of each name and stamp in turn. Returns the first error.
fn check_stamps(stamps: &[(Name, Stamp)]) -> Result<(), MessageFault>
    ensures { ReadsAs MessageFault.NoMemory (λ u. stamps.now) result (each checked_stamp 0 stamps.now) }
{
    for (place, stamp) in stamps.iter().enumerate() {
        check_stamp(place, stamp)?;
    }
    Ok(())
}

/// Returns the summary that a JSON value describes, or the first error.
#[tactic(auto, unfolding(crate::specs::Summaries::summary_in))]
fn read_summary_value(alloc: Global, label: &str, value: &Value) -> Result<Summary, MessageFault>
    ensures { ReadsAs MessageFault.NoMemory (λ m. m) result (summary_in label.now (view value.now)) }
{
    let version = read_version(value)?;
    if !only_keys(value, &["kind", "schema", "stamps", "version"]) {
        return Err(MessageFault::BadShape);
    }
    let Some(kind) = text_at(value, "kind") else {
        return Err(MessageFault::BadShape);
    };
    if kind != "summary" {
        return Err(MessageFault::BadShape);
    }
    let Some(schema) = text_at(value, "schema") else {
        return Err(MessageFault::BadShape);
    };
    let stamps = read_stamps(alloc, version, value)?;
    if schema != label {
        return Err(MessageFault::OtherSchema);
    }
    check_stamps(&stamps)?;
    Ok(Summary { stamps })
}

/// Parses a summary under the schema with this label.
///
/// In version 1 a site is a number, which becomes the name of five digits: 7 becomes `00007`.
///
/// # Errors
///
/// In this order:
///
/// - `NotJson` (50): the bytes are not JSON.
/// - `BadShape` (51): there is no `version` that is an integer in unsigned 64 bits.
/// - `Version` (53): the version is neither 1 nor 2.
/// - `BadShape` (51): the rest has another shape, stamps included, or the names do not ascend strictly.
/// - `OtherSchema` (52): the label is that of another schema.
/// - Then stamp by stamp: `CountRange` (54), the count is 0 or over 10^18; `BadEntry` (55), with code 19 within, a
///   policy's id does not have 1 to 256 bytes.
/// - `NoMemory` (1): an allocation failed; possible at any point.
#[tactic(auto, unfolding(crate::specs::Summaries::summary_stated))]
pub fn read_summary(alloc: Global, label: &str, bytes: &[u8]) -> Result<Summary, MessageFault>
    ensures { ReadsAs MessageFault.NoMemory (λ m. m) result (summary_stated label.now bytes.now) }
{
    match read_json(alloc, bytes)? {
        Some(value) => read_summary_value(alloc, label, &value),
        None => Err(MessageFault::NotJson),
    }
}
