//! The replies of a site to its inputs, one after another.
ghost use Rattle.std.specs.Prelude.{◌≡◌, ◌++◌, IfOk, IfErr, OnErr, map, option_and_then, option_map};
ghost use Rattle.std.specs.List.{AllByRecursion};
ghost use Rattle.std.specs.Str.{IsUtf8};
ghost use Rattle.json_words.specs.Json.{json_of};
ghost use Rattle.site_store.specs.schema.Schemas.{StatedSchema};
ghost use Rattle.site_store.specs.schema.Views.{schema_view};
ghost use Rattle.site_store.specs.stamped_store.Deltas.{summary_of};
ghost use Rattle.site_store.specs.stamped_store.Store.{store_of, updates};
ghost use Rattle.entity_uids.specs.Uids.{uid_in};
ghost use Rattle.sync_messages.specs.sync_format.Summaries.{summary_text};
ghost use Rattle.sync_messages.specs.sync_format.Messages.{state_text};
ghost use Rattle.sync_messages.specs.Messages.{IsMessageOf};
ghost use Rattle.site.specs.SoundAnswers.{HasPermittedErrors};
ghost use Rattle.site.specs.declared.fault.SiteFault.TheVariants as fault;
ghost use Rattle.site.specs.Admitted.{IsNotAdmitted, IsValidUnder};
ghost use Rattle.site.specs.Readings.{parsed};
ghost use Rattle.site.specs.SiteViews.{schema_of, store_in, IsSameSite};
ghost use Rattle.site.specs.Steps.{PutsPolicy, PutsEntity, DeletesPolicy, DeletesEntity, Answers};
ghost use Rattle.site.specs.Steps.{policy_found};
ghost use Rattle.site.specs.Inputs.{input_of};
ghost use Rattle.site.specs.Runs.{IsNoMessageOf, TakesMessage, Finds, Writes, WritesDelta};
ghost use Rattle.site.specs.Permitted.{ArePermittedReplies};
ghost use Rattle.site.specs.Runs.{Step, Run, took};

use crate::checking::is_id;
use crate::fault::SiteFault;
use crate::input::Input;
use crate::outcome::{Put, Taken};
use crate::reply::{Found, Reply};
use crate::site::Site;
use crate::step_laws::runs_are_sound;
use entities::EntityFault;
use entity_uids::{MOST_POLICY_BYTES, read_uid};
use json_words::{Scratch, read_json_by};
use plain::{Items, NoMemory, Text};
use site_store::{Answer, Entity, Policy, ReadFault, Schema, Stamp, updates_have_one_store};
use std::alloc::Global;
use sync_messages::{MessageFault, Update, read_message, read_summary};
use values::EntityUid;

// ---- policies by bytes

/// Returns the first error of a policy whose text is not UTF-8: of its id (`BadId`, 19), of its length (`TooLong`, 18),
/// else of its bytes (`BadToken`, 10).
fn not_text(id: &str, text: &[u8]) -> ReadFault
    ensures { (schema : StatedSchema) → (IsUtf8 text.now → ⊥)
        → IsNotAdmitted schema id.now text.now (fault.Policy result) }
{
    if !is_id(id) {
        return ReadFault::BadId;
    }
    if text.len() <= MOST_POLICY_BYTES {
        ReadFault::BadToken(0)
    } else {
        ReadFault::TooLong
    }
}

/// Puts a policy whose text is bytes. After an error the site is unchanged.
fn put_text(site: &mut Site, id: &str, text: &[u8]) -> Result<Put, SiteFault>
    ensures puts { PutsPolicy (schema_of site.old) site.old.name (store_in site.old) id.now text.now result
        (store_in site.new) }
    ensures same { IsSameSite site.old site.new }
{
    match str::from_utf8(text) {
        Ok(text) => site.put_policy(id, text),
        Err(_) => Err(SiteFault::Policy(not_text(id, text))),
    }
}

/// Puts a policy. After an error the site is unchanged.
///
/// # Errors
///
/// In this order:
///
/// - `Policy` (19): the id is not UTF-8 of 1 to 256 bytes.
/// - `Policy` (18, 10): the text has over 262,144 bytes, or is not UTF-8.
/// - The errors of [`Site::put_policy`].
fn put_policy(site: &mut Site, id: &[u8], text: &[u8]) -> Result<Put, SiteFault>
    ensures puts { PutsPolicy (schema_of site.old) site.old.name (store_in site.old) id.now text.now result
        (store_in site.new) }
    ensures same { IsSameSite site.old site.new }
{
    match str::from_utf8(id) {
        Ok(id) => put_text(site, id, text),
        Err(_) => Err(SiteFault::Policy(ReadFault::BadId)),
    }
}

/// Deletes the policy with the id `id`; an id that is not UTF-8 has the error `BadId` (19).
fn delete_policy(site: &mut Site, id: &[u8]) -> Result<Stamp, SiteFault>
    ensures deletes { DeletesPolicy site.old.name (store_in site.old) id.now result (store_in site.new) }
    ensures same { IsSameSite site.old site.new }
{
    match str::from_utf8(id) {
        Ok(id) => site.delete_policy(id),
        Err(_) => Err(SiteFault::Policy(ReadFault::BadId)),
    }
}

/// Returns the text and the stamp of the policy with this id, or `None` if the id has no text. The only error is
/// `NoMemory`.
fn found(alloc: Global, site: &Site, id: &str) -> Result<Option<Found>, SiteFault>
    ensures found { IfOk result
        (λ found. option_map (λ f. (f.text, f.stamp)) found ≡ policy_found (store_in site.now) id.now) }
    ensures refused { IfErr result (λ f. f ≡ fault.NoMemory) }
{
    match site.get_policy(id) {
        Some((text, stamp)) => {
            let text = Text::from_str(alloc, text)?;
            Ok(Some(Found { text, stamp }))
        }
        None => Ok(None),
    }
}

/// Returns the text and the stamp of the policy with this id, or `None` if the id has no text. An id that is not UTF-8
/// has the error `BadId` (19); the only other error is `NoMemory`.
fn find_policy(alloc: Global, site: &Site, id: &[u8]) -> Result<Option<Found>, SiteFault>
    ensures { Finds (store_in site.now) id.now result }
{
    match str::from_utf8(id) {
        Ok(id) => found(alloc, site, id),
        Err(_) => Err(SiteFault::Policy(ReadFault::BadId)),
    }
}

// ---- entities by JSON

/// Puts the entity that `bytes` describe as JSON. The site stores its canonical text.
///
/// # Errors
///
/// In this order; the site is then unchanged:
///
/// - `Entity` with `BadShape` (30): the bytes are not JSON.
/// - The errors of [`Site::put_entity`].
fn put_entity(
    alloc: Global,
    scratch: &mut Scratch,
    site: &mut Site,
    bytes: &[u8],
) -> Result<Stamp, SiteFault>
    ensures puts { PutsEntity (parsed (schema_of site.old)) site.old.name (store_in site.old) (json_of bytes.now) result
        (store_in site.new) }
    ensures same { IsSameSite site.old site.new }
{
    match read_json_by(scratch, alloc, bytes) {
        Ok(Some(json)) => site.put_entity(&json),
        Ok(None) => Err(SiteFault::Entity(EntityFault::BadShape)),
        Err(_) => Err(SiteFault::NoMemory),
    }
}

/// Returns the uid that `bytes` name as JSON, or `None` if they do not name one.
fn named_entity(
    alloc: Global,
    scratch: &mut Scratch,
    bytes: &[u8],
) -> Result<Option<EntityUid>, NoMemory>
    ensures { IfOk result (λ named. named ≡ option_and_then uid_in (json_of bytes.now)) }
{
    let Some(json) = read_json_by(scratch, alloc, bytes)? else {
        return Ok(None);
    };
    read_uid(alloc, &json)
}

/// Deletes the entity that `bytes` name as JSON.
///
/// # Errors
///
/// In this order; the site is then unchanged:
///
/// - `Entity` with `BadShape` (30): the bytes name no entity.
/// - The errors of [`Site::delete_entity`].
fn delete_entity(
    alloc: Global,
    scratch: &mut Scratch,
    site: &mut Site,
    bytes: &[u8],
) -> Result<Stamp, SiteFault>
    ensures deletes { DeletesEntity (parsed (schema_of site.old)) site.old.name (store_in site.old)
        (json_of bytes.now) result (store_in site.new) }
    ensures same { IsSameSite site.old site.new }
{
    let Some(uid) = named_entity(alloc, scratch, bytes)? else {
        return Err(SiteFault::Entity(EntityFault::BadShape));
    };
    site.delete_entity(&uid)
}

// ---- messages and queries

/// Returns the updates of a message, each valid under the schema; or the site's error for the first error of the
/// message, or `NoMemory`.
fn updates_of(
    alloc: Global,
    schema: &Schema,
    bytes: &[u8],
) -> Result<Vec<Update<Policy, Entity>>, SiteFault>
    ensures read { IfOk result (λ us. IsMessageOf (schema_view schema.now) bytes.now us.items) }
    ensures valid { IfOk result (λ us. AllByRecursion (IsValidUnder (schema_view schema.now)) us.items) }
    ensures refused { IfErr result (IsNoMessageOf (parsed (schema_view schema.now)) bytes.now) }
{
    match read_message(alloc, schema, bytes) {
        Ok(updates) => Ok(updates),
        Err(fault) => Err(SiteFault::from(fault)),
    }
}

/// Returns the answer to the request that `bytes` describe as JSON. Each error in the answer is `EntityDoesNotExist` or
/// `ArithBoundsError`.
///
/// # Errors
///
/// In this order:
///
/// - `Request` (63) with `BadShape` (30): the bytes are not JSON.
/// - The errors of [`Site::authorize`].
fn authorize(
    alloc: Global,
    scratch: &mut Scratch,
    site: &Site,
    bytes: &[u8],
) -> Result<Answer, SiteFault>
    ensures answers { Answers (parsed (schema_of site.now)) (store_in site.now) (json_of bytes.now) result }
    ensures right { IfOk result HasPermittedErrors }
{
    match read_json_by(scratch, alloc, bytes) {
        Ok(Some(json)) => site.authorize(&json),
        Ok(None) => Err(SiteFault::Request(EntityFault::BadShape)),
        Err(_) => Err(SiteFault::NoMemory),
    }
}

/// Returns the state, as a message to other sites of the schema. The only error is `NoMemory`.
fn state(site: &Site) -> Result<Items<u8>, SiteFault>
    ensures { Writes (state_text (schema_of site.now).label (store_in site.now)) result }
{
    let bytes = site.state()?;
    Ok(Items::from_vec(bytes))
}

/// Returns the summary, as a message to other sites of the schema. The only error is `NoMemory`.
fn summary(site: &Site) -> Result<Items<u8>, SiteFault>
    ensures { Writes (summary_text (schema_of site.now).label (summary_of (store_in site.now))) result }
{
    let bytes = site.summary()?;
    Ok(Items::from_vec(bytes))
}

/// Returns a delta against the summary in `bytes`: the entries whose names the summary lacks or has with a smaller
/// stamp.
///
/// # Errors
///
/// - `Message` (50 to 55): the first error of the bytes as a summary of the schema, in the order of [`read_summary`].
/// - `NoMemory` (1): an allocation failed; possible at any point.
fn delta(alloc: Global, site: &Site, bytes: &[u8]) -> Result<Items<u8>, SiteFault>
    ensures { WritesDelta (parsed (schema_of site.now)) (store_in site.now) bytes.now result }
{
    match read_summary(alloc, site.schema(), bytes) {
        Ok(since) => match site.delta(&since) {
            Ok(bytes) => Ok(Items::from_vec(bytes)),
            Err(_) => Err(SiteFault::NoMemory),
        },
        Err(MessageFault::NoMemory) => Err(SiteFault::NoMemory),
        Err(fault) => Err(SiteFault::Message(fault)),
    }
}

impl Site {
    /// Applies the updates of a message (a state or a delta of another site of the schema) in their order.
    ///
    /// If the allocation for an update fails, the result is `Short(k)`, and exactly the first `k` updates are applied.
    /// A failed allocation for a cache only makes the cache absent.
    ///
    /// # Errors
    ///
    /// The site is then unchanged:
    ///
    /// - `Message` (50 to 56): the first error of the bytes as a message of the schema; the message is rejected whole.
    /// - `NoMemory` (1): an allocation failed while the message was parsed.
    pub fn take_bytes(&mut self, bytes: &[u8]) -> Result<Taken, SiteFault>
        ensures takes { TakesMessage (parsed (schema_of self.old)) (store_in self.old) bytes.now result
            (store_in self.new) }
        ensures same { IsSameSite self.old self.new }
    {
        match updates_of(self.alloc(), self.schema(), bytes) {
            Ok(updates) => Ok(self.take(updates)),
            Err(fault) => Err(fault),
        }
    }

    /// Answers one input, in one step of the site.
    ///
    /// `scratch` is memory that is reused from input to input; its content does not matter.
    pub fn answer(&mut self, scratch: &mut Scratch, input: &Input<'_>) -> Reply
        ensures step { Step (schema_of self.old) self.old.name (store_in self.old) (input_of input.now) result
            (store_in self.new) }
        ensures same { IsSameSite self.old self.new }
    {
        let alloc = self.alloc();
        match input {
            Input::PutPolicy(id, text) => Reply::Put(put_policy(self, id, text)),
            Input::DeletePolicy(id) => Reply::Stamped(delete_policy(self, id)),
            Input::PutEntity(bytes) => Reply::Stamped(put_entity(alloc, scratch, self, bytes)),
            Input::DeleteEntity(uid) => Reply::Stamped(delete_entity(alloc, scratch, self, uid)),
            Input::Take(bytes) => Reply::Taken(self.take_bytes(bytes)),
            Input::Authorize(bytes) => Reply::Answered(authorize(alloc, scratch, self, bytes)),
            Input::GetPolicy(id) => Reply::Found(find_policy(alloc, self, id)),
            Input::State => Reply::Written(state(self)),
            Input::Summary => Reply::Written(summary(self)),
            Input::Delta(bytes) => Reply::Written(delta(alloc, self, bytes)),
        }
    }

    /// Answers inputs in their order, each with its reply.
    ///
    /// The store is then the join of the updates that the site had and those that it applied: one for each command that
    /// got a stamp, and those of messages. Each error in an answer is `EntityDoesNotExist` or `ArithBoundsError`.
    ///
    /// # Errors
    ///
    /// - `NoMemory` (1): the list of replies could not be allocated. The site is then unchanged.
    ///
    /// Any other failed allocation is reported in a reply, or only makes a cache absent or unused; the inputs after it
    /// are still answered.
    pub fn run(&mut self, inputs: &[Input<'_>]) -> Result<Vec<Reply>, NoMemory>
        ensures steps { IfOk result (λ replies. Run (schema_of self.old) self.old.name (store_in self.old)
            (map input_of inputs.now) replies.items (store_in self.new)) }
        ensures store { IfOk result (λ replies. store_in self.new ≡ store_of (updates (store_in self.old)
            ++ took (schema_of self.old) (map input_of inputs.now) replies.items)) }
        ensures right { IfOk result (λ replies. ArePermittedReplies replies.items) }
        ensures same { IsSameSite self.old self.new }
        ensures err { OnErr result (self.new ≡ self.old) }
    {
        updates_have_one_store();
        runs_are_sound();
        self.schema().is_stated();
        let alloc = self.alloc();
        let mut replies = Vec::with_capacity(alloc, inputs.len())?;
        let mut scratch = Scratch::new(alloc);
        for input in inputs {
            let reply = self.answer(&mut scratch, input);
            // The list was allocated with the capacity for all replies.
            if let Err(_) = replies.push(reply) {
                unreachable!();
            }
        }
        Ok(replies)
    }
}
