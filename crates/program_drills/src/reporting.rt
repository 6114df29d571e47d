//! Writes the lines of events and of sites.
ghost use Rattle.std.specs.Prelude.{◌≡◌, ℕ, List, [], ◌∷◌, ◌++◌, map, IfOk, OnOk, Some};
ghost use Rattle.std.specs.List.{AllZip, join_with_byte};
ghost use Rattle.serde_json.specs.View.{view};
ghost use Rattle.schema_decisions.specs.answer_lines.Lines.{answer_line};
ghost use Rattle.http_service.specs.http_replies.Replies.{answer_reply, fault_reply, put_reply, stamp_reply};
ghost use Rattle.http_service.specs.http_replies.Replies.{taken_reply};
ghost use Rattle.program_drills.specs.Drills.{IsEventLine};
ghost use Rattle.program_drills.specs.Lines.{line_end};
ghost use Rattle.program_drills.specs.EventReports.{reply_line, message_json, message_line, state_line};
ghost use Rattle.program_drills.specs.EventReports.{summary_json, summary_line};
ghost use Rattle.program_drills.specs.inner.LineFeeds.{AppendsEventLines, AppendsEventLine, ended};

use http_service::{
    EventReply, LINE_ROOM, Put, Reply, Site, SiteFault, Stamp, Taken, World, report_fault,
    report_put, report_stamp, report_taken,
};
use json_words::write_json;
use plain::NoMemory;
use schema_decisions::{Answer, answer_line};
use serde_json::{Value, json};
use std::alloc::Global;

// ---- one line

/// Appends the line of an error.
fn append_fault(text: &mut Vec<u8>, fault: SiteFault) -> Result<(), NoMemory>
    ensures { OnOk result (text.new.items ≡ text.old.items ++ (fault_reply fault).1) }
{
    text.reserve(LINE_ROOM)?;
    let _ = report_fault(text, fault);
    Ok(())
}

/// Appends the outcome of a put of a policy.
fn append_put(text: &mut Vec<u8>, outcome: Result<Put, SiteFault>) -> Result<(), NoMemory>
    ensures { OnOk result (text.new.items ≡ text.old.items ++ (put_reply outcome).1) }
{
    text.reserve(LINE_ROOM)?;
    let _ = report_put(text, outcome);
    Ok(())
}

/// Appends the outcome of a put of an entity, or of a deletion.
fn append_stamp(text: &mut Vec<u8>, outcome: Result<Stamp, SiteFault>) -> Result<(), NoMemory>
    ensures { OnOk result (text.new.items ≡ text.old.items ++ (stamp_reply outcome).1) }
{
    text.reserve(LINE_ROOM)?;
    let _ = report_stamp(text, outcome);
    Ok(())
}

/// Appends the outcome of a delivered message.
fn append_taken(text: &mut Vec<u8>, outcome: Result<Taken, SiteFault>) -> Result<(), NoMemory>
    ensures { OnOk result (text.new.items ≡ text.old.items ++ (taken_reply outcome).1) }
{
    text.reserve(LINE_ROOM)?;
    let _ = report_taken(text, outcome);
    Ok(())
}

/// Appends the line of an answer.
fn append_answer(alloc: Global, text: &mut Vec<u8>, answer: &Answer) -> Result<(), NoMemory>
    ensures { OnOk result (text.new.items ≡ text.old.items ++ answer_line answer.now) }
{
    let line = answer_line(alloc, answer)?;
    text.extend_from_slice(line.as_slice())
}

/// Appends the outcome of a request.
fn append_answered(
    alloc: Global,
    text: &mut Vec<u8>,
    outcome: &Result<Answer, SiteFault>,
) -> Result<(), NoMemory>
    ensures { OnOk result (text.new.items ≡ text.old.items ++ (answer_reply outcome.now).1) }
{
    match outcome {
        Ok(answer) => append_answer(alloc, text, answer),
        Err(fault) => append_fault(text, *fault),
    }
}

/// Returns the JSON of the number of a message that was made.
fn message_value(alloc: Global, number: u64) -> Result<Value, NoMemory>
    ensures { IfOk result (λ v. view v ≡ message_json number) }
{
    json!(in alloc; {"message": number})
}

/// Returns the JSON of the number of a summary that was made.
fn summary_value(alloc: Global, number: u64) -> Result<Value, NoMemory>
    ensures { IfOk result (λ v. view v ≡ summary_json number) }
{
    json!(in alloc; {"summary": number})
}

/// Returns the line with the number of a message that was made: `{"message":0}`.
fn message_line(alloc: Global, number: usize) -> Result<Vec<u8>, NoMemory>
    ensures { IfOk result (λ b. b.items ≡ message_line number) }
{
    let value = message_value(alloc, number as u64)?;
    write_json(alloc, &value)
}

/// Appends the line of a message that was made.
fn append_message(alloc: Global, text: &mut Vec<u8>, number: usize) -> Result<(), NoMemory>
    ensures { OnOk result (text.new.items ≡ text.old.items ++ message_line number) }
{
    let line = message_line(alloc, number)?;
    text.extend_from_slice(line.as_slice())
}

/// Returns the line with the number of a summary that was made: `{"summary":0}`.
fn summary_line(alloc: Global, number: usize) -> Result<Vec<u8>, NoMemory>
    ensures { IfOk result (λ b. b.items ≡ summary_line number) }
{
    let value = summary_value(alloc, number as u64)?;
    write_json(alloc, &value)
}

/// Appends the line of a summary that was made.
fn append_summary(alloc: Global, text: &mut Vec<u8>, number: usize) -> Result<(), NoMemory>
    ensures { OnOk result (text.new.items ≡ text.old.items ++ summary_line number) }
{
    let line = summary_line(alloc, number)?;
    text.extend_from_slice(line.as_slice())
}

/// Appends the line of a site's reply. No event has a reply `Found` or `Written`: these give `NoMemory`.
fn append_reply(alloc: Global, text: &mut Vec<u8>, reply: &Reply) -> Result<(), NoMemory>
    ensures { OnOk result ((line : List ℕ) × (reply_line reply.now ≡ Some line)
        × (text.new.items ≡ text.old.items ++ line)) }
{
    match reply {
        Reply::Put(outcome) => append_put(text, *outcome),
        Reply::Stamped(outcome) => append_stamp(text, *outcome),
        Reply::Taken(outcome) => append_taken(text, *outcome),
        Reply::Answered(outcome) => append_answered(alloc, text, outcome),
        Reply::Found(_) | Reply::Written(_) => Err(NoMemory),
    }
}

/// Appends the line of an event.
///
/// # Errors
///
/// - `NoMemory`: an allocation failed; or the message or summary that the event names was not made, because an earlier
///   line ran out of memory.
fn append_event(alloc: Global, text: &mut Vec<u8>, answer: &EventReply) -> Result<(), NoMemory>
    ensures { OnOk result (AppendsEventLine answer.now text.old.items text.new.items) }
{
    match answer {
        EventReply::Unknown => Err(NoMemory),
        EventReply::Replied(reply) => append_reply(alloc, text, reply),
        EventReply::Message(Ok(number)) => append_message(alloc, text, *number),
        EventReply::Summary(Ok(number)) => append_summary(alloc, text, *number),
        EventReply::Message(Err(fault)) => append_fault(text, *fault),
        EventReply::Summary(Err(fault)) => append_fault(text, *fault),
    }
}

// ---- all lines

/// Appends a line for each event, each with a line feed.
fn append_events(alloc: Global, text: &mut Vec<u8>, answers: &[EventReply]) -> Result<(), NoMemory>
    ensures { OnOk result (AppendsEventLines answers.now text.old.items text.new.items) }
{
    for answer in answers {
        append_event(alloc, text, answer)?;
        text.push(b'\n')?;
    }
    Ok(())
}

/// Appends the state of a site and a line feed.
fn append_state(text: &mut Vec<u8>, site: &Site) -> Result<(), NoMemory>
    ensures { OnOk result (text.new.items ≡ text.old.items ++ (state_line site.now ++ line_end ∷ [])) }
{
    let state = site.state()?;
    text.extend_from_slice(state.as_slice())?;
    text.push(b'\n')?;
    Ok(())
}

/// Appends the state of each site, each with a line feed.
fn append_states(text: &mut Vec<u8>, sites: &[Site]) -> Result<(), NoMemory>
    ensures { OnOk result (text.new.items ≡ text.old.items ++ ended (map state_line sites.now)) }
{
    for site in sites {
        append_state(text, site)?;
    }
    Ok(())
}

/// Returns a line for each event, then the state of each site, joined by line feeds.
pub(crate) fn world_lines(alloc: Global, world: &World) -> Result<Vec<u8>, NoMemory>
    ensures { IfOk result (λ text. (lines : List (List ℕ)) × AllZip IsEventLine world.now.replies.items lines
        × (text.items ≡ join_with_byte line_end (lines ++ map state_line world.now.sites.items))) }
{
    let mut text = Vec::new(alloc);
    append_events(alloc, &mut text, &world.replies)?;
    append_states(&mut text, &world.sites)?;
    let _ = text.pop();
    Ok(text)
}
