//! Reports each outcome: appends the body of the reply to a text, and returns the status of the reply.
//!
//! Each public function requires that the text has spare capacity for a short line (`LINE_ROOM` bytes). If a longer
//! body cannot be allocated, the error of code 1 (out of memory) is appended in its place, so there is always a reply.
//! The capacity of the text does not shrink.
ghost use Rattle.std.specs.Prelude.{◌≡◌, ◌≤◌, ◌+◌, ◌++◌, List, ℕ, OnOk, OnErr, option_map, vec_len};
ghost use Rattle.std.specs.Vec.{vec_capacity};
ghost use Rattle.http_replies.specs.Replies.{fault_place};
ghost use Rattle.http_replies.specs.Replies.{answer_reply, fault_reply, found_reply, message_reply, put_reply};
ghost use Rattle.http_replies.specs.Replies.{stamp_reply, status_reply, taken_reply, IsReplyOrNoMemory};

use crate::LINE_ROOM;
use crate::line::{append_fault, append_put, append_stamp, append_taken};
use crate::long::{append_answer, append_found};
use crate::status::refusal_status;
use answer_lines::{Answer, Place};
use http::StatusCode;
use plain::{Items, NoMemory};
use site::{Put, SiteFault, Stamp, Taken};
use std::alloc::Global;

/// Returns the place of an error of the site: a byte in a policy's text, or the entry or stamp of a message; `None` if
/// the error has neither.
pub fn fault_place(fault: SiteFault) -> Option<Place>
    ensures { result ≡ fault_place fault }
{
    match fault {
        SiteFault::Policy(fault) => fault.place().map(Place::Byte),
        SiteFault::Message(fault) => fault.place().map(Place::Index),
        _ => None,
    }
}

/// Appends an error of the site: its code, its place and the code of the inner error. Allocates nothing.
pub fn report_fault(text: &mut Vec<u8>, fault: SiteFault) -> StatusCode
    requires room { vec_len text.old + LINE_ROOM ≤ vec_capacity text.old }
    ensures status { result ≡ (fault_reply fault).0 }
    ensures body { text.new.items ≡ text.old.items ++ (fault_reply fault).1 }
    ensures kept { vec_capacity text.old ≤ vec_capacity text.new }
{
    append_fault(
        text,
        u16::from(fault.code()),
        fault_place(fault),
        fault.within(),
    );
    refusal_status(fault.code())
}

/// Appends an error that is a status alone, such as an unknown path (404) or another method (405). Allocates nothing.
pub fn report_status(text: &mut Vec<u8>, status: StatusCode) -> StatusCode
    requires room { vec_len text.old + LINE_ROOM ≤ vec_capacity text.old }
    ensures status { result ≡ (status_reply status).0 }
    ensures body { text.new.items ≡ text.old.items ++ (status_reply status).1 }
    ensures kept { vec_capacity text.old ≤ vec_capacity text.new }
{
    append_fault(text, status.as_u16(), None, None);
    status
}

/// Appends the outcome of a put of a policy: `{"count":1,"impossible":true,"site":"00001"}`. Allocates nothing.
pub fn report_put(text: &mut Vec<u8>, outcome: Result<Put, SiteFault>) -> StatusCode
    requires room { vec_len text.old + LINE_ROOM ≤ vec_capacity text.old }
    ensures status { result ≡ (put_reply outcome).0 }
    ensures body { text.new.items ≡ text.old.items ++ (put_reply outcome).1 }
    ensures kept { vec_capacity text.old ≤ vec_capacity text.new }
{
    match outcome {
        Ok(put) => {
            append_put(text, put.stamp, put.impossible);
            StatusCode::OK
        }
        Err(fault) => report_fault(text, fault),
    }
}

/// Appends the outcome of a put of an entity, or of a deletion: `{"count":2,"site":"00001"}`. Allocates nothing.
pub fn report_stamp(text: &mut Vec<u8>, outcome: Result<Stamp, SiteFault>) -> StatusCode
    requires room { vec_len text.old + LINE_ROOM ≤ vec_capacity text.old }
    ensures status { result ≡ (stamp_reply outcome).0 }
    ensures body { text.new.items ≡ text.old.items ++ (stamp_reply outcome).1 }
    ensures kept { vec_capacity text.old ≤ vec_capacity text.new }
{
    match outcome {
        Ok(stamp) => {
            append_stamp(text, stamp);
            StatusCode::OK
        }
        Err(fault) => report_fault(text, fault),
    }
}

/// Appends the outcome of a message: `{"taken":3}`, or, if memory ran out at an update, the error 1 (503), with the
/// number of applied updates as its place. Allocates nothing.
pub fn report_taken(text: &mut Vec<u8>, outcome: Result<Taken, SiteFault>) -> StatusCode
    requires room { vec_len text.old + LINE_ROOM ≤ vec_capacity text.old }
    ensures status { result ≡ (taken_reply outcome).0 }
    ensures body { text.new.items ≡ text.old.items ++ (taken_reply outcome).1 }
    ensures kept { vec_capacity text.old ≤ vec_capacity text.new }
{
    match outcome {
        Ok(Taken::All(count)) => {
            append_taken(text, count);
            StatusCode::OK
        }
        Ok(Taken::Short(count)) => {
            append_fault(text, 1, Some(Place::Taken(count)), None);
            StatusCode::SERVICE_UNAVAILABLE
        }
        Err(fault) => report_fault(text, fault),
    }
}

/// Returns 200 if a body was appended. If the body could not be allocated, appends the error 1 (out of memory) in its
/// place, and returns 503.
fn status_or_no_memory(text: &mut Vec<u8>, appended: Result<(), NoMemory>) -> StatusCode
    requires room { OnErr appended (vec_len text.old + LINE_ROOM ≤ vec_capacity text.old) }
    ensures ok { OnOk appended ((result ≡ 200) × (text.new.items ≡ text.old.items)) }
    ensures err { OnErr appended ((result ≡ (fault_reply SiteFault.NoMemory).0)
        × (text.new.items ≡ text.old.items ++ (fault_reply SiteFault.NoMemory).1)) }
    ensures kept { vec_capacity text.old ≤ vec_capacity text.new }
{
    match appended {
        Ok(()) => StatusCode::OK,
        Err(_) => report_fault(text, SiteFault::NoMemory),
    }
}

/// Appends the outcome of a request for a decision:
/// `{"cycle":[],"decision":"Allow","errors":[],"reason":["p"]}`.
pub fn report_answer(
    alloc: Global,
    text: &mut Vec<u8>,
    outcome: &Result<Answer, SiteFault>,
) -> StatusCode
    requires room { vec_len text.old + LINE_ROOM ≤ vec_capacity text.old }
    ensures reply { (body : List ℕ) × (text.new.items ≡ text.old.items ++ body)
        × IsReplyOrNoMemory (answer_reply outcome.now) result body }
    ensures kept { vec_capacity text.old ≤ vec_capacity text.new }
{
    match outcome {
        Ok(answer) => {
            let appended = append_answer(alloc, text, answer);
            status_or_no_memory(text, appended)
        }
        Err(fault) => report_fault(text, *fault),
    }
}

/// Appends a policy's text and stamp, `{"count":1,"site":"00001","text":"permit(principal, action, resource);"}`, or
/// the error that there is no such policy (60).
pub fn report_found(alloc: Global, text: &mut Vec<u8>, found: &Option<(&str, Stamp)>) -> StatusCode
    requires room { vec_len text.old + LINE_ROOM ≤ vec_capacity text.old }
    ensures reply { (body : List ℕ) × (text.new.items ≡ text.old.items ++ body)
        × IsReplyOrNoMemory (found_reply (option_map (λ f. (f.0.now, f.1)) found.now)) result body }
    ensures kept { vec_capacity text.old ≤ vec_capacity text.new }
{
    match found {
        Some((policy, stamp)) => {
            let appended = append_found(alloc, text, policy, *stamp);
            status_or_no_memory(text, appended)
        }
        None => report_fault(text, SiteFault::NotThere),
    }
}

/// Appends the message in `outcome`, or its error.
pub fn report_message(text: &mut Vec<u8>, outcome: &Result<Items<u8>, SiteFault>) -> StatusCode
    requires room { vec_len text.old + LINE_ROOM ≤ vec_capacity text.old }
    ensures reply { (body : List ℕ) × (text.new.items ≡ text.old.items ++ body)
        × IsReplyOrNoMemory (message_reply outcome.now) result body }
    ensures kept { vec_capacity text.old ≤ vec_capacity text.new }
{
    match outcome {
        Ok(bytes) => {
            let appended = text.extend_from_slice(bytes.as_slice());
            status_or_no_memory(text, appended)
        }
        Err(fault) => report_fault(text, *fault),
    }
}
