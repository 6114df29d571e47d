//! Runs a system of sites, event by event.
ghost use Rattle.site_store.specs.schema.Schemas.{StatedSchema};
ghost use Rattle.site.specs.Sites.{SiteName, start};
ghost use Rattle.std.specs.Prelude.{◌≡◌, List, ◌++◌, IfOk, OnOk, length, option_map};
ghost use Rattle.site.specs.SiteViews.{schema_of, store_in, IsSameSite};
ghost use Rattle.site.specs.Inputs.{input_of};
ghost use Rattle.site.specs.Worlds.{answer_among, message_bytes, summary_bytes as bytes_made};
ghost use Rattle.site.specs.SystemViews.{IsRunTo, IsViewOf};
ghost use Rattle.site.specs.inner.Playing.{input_among, AnswersOperation, IsEventStep};

use crate::event::{Event, EventReply, Operation};
use crate::input::Input;
use crate::reply::Reply;
use crate::site::Site;
use json_words::Scratch;
use plain::{Items, NoMemory};
use std::alloc::Global;

/// Returns the input that an operation gives its site, or `None` if the operation names a message or summary that was
/// not made yet. `messages` and `summaries` are those that were made so far.
fn input_by<'a>(
    operation: &'a Operation,
    messages: &'a [Items<u8>],
    summaries: &'a [Items<u8>],
) -> Option<Input<'a>>
    ensures { option_map input_of result ≡ input_among messages.now summaries.now operation.now }
{
    match operation {
        Operation::PutPolicy(id, text) => Some(Input::PutPolicy(id.as_slice(), text.as_slice())),
        Operation::DeletePolicy(id) => Some(Input::DeletePolicy(id.as_slice())),
        Operation::PutEntity(bytes) => Some(Input::PutEntity(bytes.as_slice())),
        Operation::DeleteEntity(uid) => Some(Input::DeleteEntity(uid.as_slice())),
        Operation::Authorize(bytes) => Some(Input::Authorize(bytes.as_slice())),
        Operation::Summary => Some(Input::Summary),
        Operation::Offer => Some(Input::State),
        Operation::OfferDelta(number) => match summaries.get(*number) {
            Some(bytes) => Some(Input::Delta(bytes.as_slice())),
            None => None,
        },
        Operation::Deliver(number) => match messages.get(*number) {
            Some(bytes) => Some(Input::Take(bytes.as_slice())),
            None => None,
        },
    }
}

/// Executes an operation at a site, and returns the reply. Returns `None`, and changes nothing, if the operation names
/// a message or summary that was not made yet.
pub(crate) fn step(
    scratch: &mut Scratch,
    site: &mut Site,
    operation: &Operation,
    messages: &[Items<u8>],
    summaries: &[Items<u8>],
) -> Option<Reply>
    ensures step { AnswersOperation (schema_of site.old) site.old.name (store_in site.old)
        (input_among messages.now summaries.now operation.now) result (store_in site.new) }
    ensures same { IsSameSite site.old site.new }
{
    match input_by(operation, messages, summaries) {
        Some(input) => Some(site.answer(scratch, &input)),
        None => None,
    }
}

/// Appends the message in a site's reply to `messages`, and returns the event's reply: the message's number, or the
/// error.
fn keep_message(messages: &mut Vec<Items<u8>>, reply: Reply) -> Result<EventReply, NoMemory>
    ensures answer { IfOk result (λ a. a ≡ answer_among (length messages.old.items) 0 Operation.Offer reply) }
    ensures kept { OnOk result (messages.new.items ≡ messages.old.items ++ message_bytes Operation.Offer reply) }
{
    let number = messages.len();
    match reply {
        Reply::Written(Ok(bytes)) => {
            messages.push(bytes)?;
            Ok(EventReply::Message(Ok(number)))
        }
        Reply::Written(Err(fault)) => Ok(EventReply::Message(Err(fault))),
        other => Ok(EventReply::Replied(other)),
    }
}

/// Appends the summary in a site's reply to `summaries`, and returns the event's reply: the summary's number, or the
/// error.
fn keep_summary(summaries: &mut Vec<Items<u8>>, reply: Reply) -> Result<EventReply, NoMemory>
    ensures answer { IfOk result (λ a. a ≡ answer_among 0 (length summaries.old.items) Operation.Summary reply) }
    ensures kept { OnOk result (summaries.new.items ≡ summaries.old.items ++ bytes_made Operation.Summary reply) }
{
    let number = summaries.len();
    match reply {
        Reply::Written(Ok(bytes)) => {
            summaries.push(bytes)?;
            Ok(EventReply::Summary(Ok(number)))
        }
        Reply::Written(Err(fault)) => Ok(EventReply::Summary(Err(fault))),
        other => Ok(EventReply::Replied(other)),
    }
}

/// Stores the message or summary that an operation with this reply made, if any, and returns the event's reply.
pub(crate) fn keep(
    messages: &mut Vec<Items<u8>>,
    summaries: &mut Vec<Items<u8>>,
    operation: &Operation,
    reply: Reply,
) -> Result<EventReply, NoMemory>
    ensures answer { IfOk result
        (λ a. a ≡ answer_among (length messages.old.items) (length summaries.old.items) operation.now reply) }
    ensures messages { OnOk result (messages.new.items ≡ messages.old.items ++ message_bytes operation.now reply) }
    ensures summaries { OnOk result (summaries.new.items ≡ summaries.old.items ++ bytes_made operation.now reply) }
{
    match operation {
        Operation::Offer => keep_message(messages, reply),
        Operation::OfferDelta(_) => keep_message(messages, reply),
        Operation::Summary => keep_summary(summaries, reply),
        _ => Ok(EventReply::Replied(reply)),
    }
}

/// Runs one event, and returns its reply. Nothing changes if the event names a site, a message or a summary that does
/// not exist.
fn play_one(
    scratch: &mut Scratch,
    sites: &mut Vec<Site>,
    messages: &mut Vec<Items<u8>>,
    summaries: &mut Vec<Items<u8>>,
    event: &Event,
) -> Result<EventReply, NoMemory>
    ensures { IfOk result (λ a. IsEventStep sites.old.items messages.old.items summaries.old.items event.now a
        sites.new.items messages.new.items summaries.new.items) }
{
    if event.site == 0 {
        return Ok(EventReply::Unknown);
    }
    if event.site > sites.len() {
        return Ok(EventReply::Unknown);
    }
    let reply = step(
        scratch,
        &mut sites[event.site - 1],
        &event.operation,
        messages.as_slice(),
        summaries.as_slice(),
    );
    let Some(reply) = reply else {
        return Ok(EventReply::Unknown);
    };
    let answer = keep(messages, summaries, &event.operation, reply)?;
    Ok(answer)
}

/// Runs events one after another, and returns their replies.
pub(crate) fn play(
    alloc: Global,
    sites: &mut Vec<Site>,
    messages: &mut Vec<Items<u8>>,
    summaries: &mut Vec<Items<u8>>,
    events: &[Event],
) -> Result<Vec<EventReply>, NoMemory>
    ensures { IfOk result (λ rs. (schema : StatedSchema) (names : List SiteName)
        → IsViewOf schema names sites.old.items messages.old.items summaries.old.items (start names)
        → IsRunTo schema names events.now rs.items sites.new.items messages.new.items summaries.new.items) }
{
    let mut replies = Vec::new(alloc);
    let mut scratch = Scratch::new(alloc);
    for event in events {
        replies.push(play_one(&mut scratch, sites, messages, summaries, event)?)?;
    }
    Ok(replies)
}
