//! Cases of sites that exchange messages.
use crate::inputs::{OwnedInput, input_of};
use crate::line::{BAD_ROW, BETWEEN, Line, NO_MEMORY};
use crate::replies::{push_fault, push_reply, push_state};
use crate::written::{first_word, number_of};
use entities::Schema;
use http_service::{Event, EventReply, Operation, SiteFault, World, simulate};
use plain::{NoMemory, Shared};
use std::alloc::Global;

/// Drops the parts of an input that is not an event.
fn no_operation<T: Drop>(_parts: T) -> Option<Operation> {
    None
}

/// Returns the operation of an event, if an input is one.
fn operation_by(input: OwnedInput) -> Option<Operation> {
    match input {
        OwnedInput::PutPolicy(id, text) => Some(Operation::PutPolicy(id, text)),
        OwnedInput::DeletePolicy(id) => Some(Operation::DeletePolicy(id)),
        OwnedInput::PutEntity(bytes) => Some(Operation::PutEntity(bytes)),
        OwnedInput::DeleteEntity(uid) => Some(Operation::DeleteEntity(uid)),
        OwnedInput::Authorize(bytes) => Some(Operation::Authorize(bytes)),
        OwnedInput::Summary => Some(Operation::Summary),
        OwnedInput::Take(bytes) => no_operation(bytes),
        OwnedInput::Delta(bytes) => no_operation(bytes),
        OwnedInput::GetPolicy(id) => no_operation(id),
        OwnedInput::State => None,
    }
}

/// Returns the operation that a string describes as an input; `None` if the string does not describe an input, or if
/// the input is not an operation.
fn input_operation(alloc: Global, text: &str) -> Result<Option<Operation>, NoMemory> {
    match input_of(alloc, text)? {
        Some(input) => Ok(operation_by(input)),
        None => Ok(None),
    }
}

/// Returns the offer of a delta against the summary whose number a string spells, if it spells one.
fn delta_offered(text: &str) -> Option<Operation> {
    match number_of(text) {
        Some(number) => Some(Operation::OfferDelta(number)),
        None => None,
    }
}

/// Returns the delivery of the message whose number a string spells, if it spells one.
fn delivered(text: &str) -> Option<Operation> {
    match number_of(text) {
        Some(number) => Some(Operation::Deliver(number)),
        None => None,
    }
}

/// Returns the operation of an event that a string describes, if it describes one.
fn operation_of(alloc: Global, text: &str) -> Result<Option<Operation>, NoMemory> {
    let (word, about) = first_word(text);
    match word {
        "offer" => Ok(Some(Operation::Offer)),
        "offer_delta" => Ok(delta_offered(about)),
        "deliver" => Ok(delivered(about)),
        _ => input_operation(alloc, text),
    }
}

/// Returns the event that a string describes, if it describes one.
fn event_of(alloc: Global, text: &str) -> Result<Option<Event>, NoMemory> {
    let (site, operation) = first_word(text);
    let Some(site) = number_of(site) else {
        return Ok(None);
    };
    match operation_of(alloc, operation)? {
        Some(operation) => Ok(Some(Event { site, operation })),
        None => Ok(None),
    }
}

/// Appends the event that a string describes. Returns whether it describes one.
fn push_event(alloc: Global, events: &mut Vec<Event>, text: &str) -> Result<bool, NoMemory> {
    match event_of(alloc, text)? {
        Some(event) => {
            events.push(event)?;
            Ok(true)
        }
        None => Ok(false),
    }
}

/// Returns the events that a string describes; `None` if one of its parts does not describe an event.
fn events_of(alloc: Global, text: &str) -> Result<Option<Vec<Event>>, NoMemory> {
    let mut events = Vec::new(alloc);
    if text.is_empty() {
        return Ok(Some(events));
    }
    for one in text.split(BETWEEN) {
        if !push_event(alloc, &mut events, one)? {
            return Ok(None);
        }
    }
    Ok(Some(events))
}

/// Appends the number of a message or of a summary that was made.
fn push_made(line: &mut Line, word: &str, made: Result<usize, SiteFault>) {
    line.push(word.as_bytes());
    line.push(b" ");
    match made {
        Ok(number) => line.push_number(number as u64),
        Err(fault) => push_fault(line, fault),
    }
}

/// Appends the reply to an event.
fn push_event_reply(alloc: Global, line: &mut Line, reply: &EventReply) {
    line.begin_part();
    match reply {
        EventReply::Unknown => line.push(b"unknown"),
        EventReply::Replied(reply) => push_reply(alloc, line, reply),
        EventReply::Message(made) => push_made(line, "message", *made),
        EventReply::Summary(made) => push_made(line, "summary", *made),
    }
}

/// Appends the replies to the events, and the state of each site.
fn push_outcome(alloc: Global, line: &mut Line, world: &World) {
    for reply in &world.replies {
        push_event_reply(alloc, line, reply);
    }
    for site in &world.sites {
        line.begin_part();
        push_state(line, site);
    }
}

/// Returns the number of sites that a string asks for, or 0 if it is not a number of 16 bits.
fn count_of(text: &str) -> u16 {
    text.parse().unwrap_or(0)
}

/// Executes events at `count` sites. Returns `None` if `count` is 0 or over 64.
fn played(
    alloc: Global,
    schema: &Shared<Schema>,
    count: u16,
    events: &[Event],
) -> Option<Result<World, NoMemory>> {
    if 1 <= count && count <= 64 {
        Some(simulate(alloc, schema, count, events))
    } else {
        None
    }
}

/// Executes events at the given number of sites, and appends the outcome.
fn push_played(
    alloc: Global,
    schema: &Shared<Schema>,
    count: u16,
    events: &[Event],
    line: &mut Line,
) {
    match played(alloc, schema, count, events) {
        Some(Ok(world)) => push_outcome(alloc, line, &world),
        Some(Err(_)) => line.push(NO_MEMORY),
        None => line.push(BAD_ROW),
    }
}

/// Executes the events that a string describes at the given number of sites, and appends the outcome.
fn push_script(alloc: Global, schema: &Shared<Schema>, count: u16, text: &str, line: &mut Line) {
    match events_of(alloc, text) {
        Ok(Some(events)) => push_played(alloc, schema, count, &events, line),
        Ok(None) => line.push(BAD_ROW),
        Err(_) => line.push(NO_MEMORY),
    }
}

/// Appends the outcome of a case.
pub(crate) fn push_world(
    alloc: Global,
    schema: Option<&Shared<Schema>>,
    text: &str,
    line: &mut Line,
) {
    let (count, script) = first_word(text);
    match schema {
        Some(schema) => push_script(alloc, schema, count_of(count), script, line),
        None => line.push(BAD_ROW),
    }
}
