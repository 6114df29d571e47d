//! The line of a request, in two steps: method and target before anything is done, and the rest once the reply is
//! known, before it is sent.
//!
//! The first step reserves memory for the rest of the line of a change, so ending that line after the change needs no
//! allocation.
ghost use Rattle.std.specs.Prelude.{◌≡◌, ◌≤◌, ◌+◌, ◌++◌, IfOk, OnOk, OnErr, codes, drop, vec_len};
ghost use Rattle.std.specs.Vec.{vec_capacity};
ghost use Rattle.json_words.specs.Json.{json_of};
ghost use Rattle.http_service.specs.Routes.{asked_by};
ghost use Rattle.http_replies.specs.site.Inputs.{input_of};
ghost use Rattle.http_service.specs.LogLines.{IsDecision, decision_tail, head_text, members_text};
ghost use Rattle.http_service.specs.LogLines.{plain_tail, stamp_tail};
ghost use Rattle.http_service.specs.LogLines.{status_text, tail_of, text_of, unread_line};
ghost use Rattle.http_service.specs.declared.TheConstants.{MOST_TAIL, MOST_UNREAD_LINE};

use crate::log_pieces::{append, append_number, head_of, members_of};
use crate::route::Route;
use crate::{MOST_STAMP, MOST_TAIL};
use http::StatusCode;
use http_replies::Input;
use json_words::{Scratch, read_json_by};
use plain::NoMemory;
use std::alloc::Global;

/// Appends the beginning of the line of a request, and reserves memory for the rest of the line of a change.
///
/// # Errors
///
/// - `NoMemory`: an allocation failed. The line is then unchanged.
pub(crate) fn put_head(
    alloc: Global,
    line: &mut Vec<u8>,
    method: &[u8],
    target: &[u8],
) -> Result<(), NoMemory>
    ensures ok { OnOk result (line.new.items ≡ line.old.items ++ head_text (text_of method.now) (text_of target.now)) }
    ensures room { OnOk result (vec_len line.new + MOST_TAIL ≤ vec_capacity line.new) }
    ensures err { OnErr result (line.new.items ≡ line.old.items) }
    ensures kept { vec_capacity line.old ≤ vec_capacity line.new }
{
    match head_of(alloc, method, target) {
        Ok(head) => put_with_room(line, head.as_slice()),
        Err(error) => Err(error),
    }
}

/// Appends a piece, and reserves memory for the rest of a line.
fn put_with_room(line: &mut Vec<u8>, piece: &[u8]) -> Result<(), NoMemory>
    ensures ok { OnOk result (line.new.items ≡ line.old.items ++ piece.now) }
    ensures room { OnOk result (vec_len line.new + MOST_TAIL ≤ vec_capacity line.new) }
    ensures err { OnErr result (line.new.items ≡ line.old.items) }
    ensures kept { vec_capacity line.old ≤ vec_capacity line.new }
{
    let Some(room) = piece.len().checked_add(MOST_TAIL) else {
        return Err(NoMemory);
    };
    line.reserve(room)?;
    append(line, piece);
    Ok(())
}

/// Appends the status, in at most 30 bytes.
fn put_status(line: &mut Vec<u8>, status: StatusCode)
    requires room { vec_len line.old + 30 ≤ vec_capacity line.old }
    ensures items { line.new.items ≡ line.old.items ++ status_text status }
    ensures len { vec_len line.new ≤ vec_len line.old + 30 }
    ensures kept { vec_capacity line.old ≤ vec_capacity line.new }
{
    append(line, b",\"status\":");
    append_number(line, u64::from(status.as_u16()));
}

/// Ends a line that reports only its status, in at most 32 bytes. Does not allocate.
pub(crate) fn put_plain_tail(line: &mut Vec<u8>, status: StatusCode)
    requires room { vec_len line.old + 32 ≤ vec_capacity line.old }
    ensures items { line.new.items ≡ line.old.items ++ plain_tail status }
    ensures kept { vec_capacity line.old ≤ vec_capacity line.new }
{
    put_status(line, status);
    append(line, b"}\n");
}

/// Ends the line of a change with the body of its reply, which has the stamp. A body of over 128 bytes, which no reply
/// to a change has, is left out. Does not allocate.
fn put_stamp_tail(line: &mut Vec<u8>, status: StatusCode, reply: &[u8])
    requires { vec_len line.old + MOST_TAIL ≤ vec_capacity line.old }
    ensures items { line.new.items ≡ line.old.items ++ stamp_tail status reply.now }
    ensures kept { vec_capacity line.old ≤ vec_capacity line.new }
{
    if reply.len() <= MOST_STAMP {
        put_status(line, status);
        append(line, b",\"stamp\":");
        append(line, reply);
        append(line, b"}\n");
        return;
    }
    put_plain_tail(line, status);
}

/// Returns all bytes but the first.
fn behind_first(bytes: &[u8]) -> &[u8]
    ensures { result.now ≡ drop 1 bytes.now }
{
    if bytes.is_empty() {
        return bytes;
    }
    &bytes[1..]
}

/// Ends the line of a decision, where `asked` has the members that name principal, action and resource.
fn put_tail_with_names(
    line: &mut Vec<u8>,
    status: StatusCode,
    asked: &[u8],
    reply: &[u8],
) -> Result<(), NoMemory>
    ensures ok { OnOk result (line.new.items
        ≡ line.old.items ++ (status_text status ++ asked.now ++ codes "," ++ drop 1 reply.now ++ codes "\n")) }
    ensures err { OnErr result (line.new.items ≡ line.old.items) }
    ensures len { OnErr result (vec_len line.new ≡ vec_len line.old) }
    ensures kept { vec_capacity line.old ≤ vec_capacity line.new }
{
    let Some(pieces) = asked.len().checked_add(reply.len()) else {
        return Err(NoMemory);
    };
    let Some(room) = pieces.checked_add(MOST_TAIL) else {
        return Err(NoMemory);
    };
    line.reserve(room)?;
    put_status(line, status);
    append(line, asked);
    append(line, b",");
    append(line, behind_first(reply));
    append(line, b"\n");
    Ok(())
}

/// Returns the members `principal`, `action` and `resource` of the line of a decision on the request in `body`.
fn names_in(alloc: Global, scratch: &mut Scratch, body: &[u8]) -> Result<Vec<u8>, NoMemory>
    ensures { IfOk result (λ made. made.items ≡ members_text (json_of body.now)) }
{
    let json = read_json_by(scratch, alloc, body)?;
    members_of(alloc, &json)
}

/// Ends the line of a decision on the request in `body`.
fn put_decision_tail(
    alloc: Global,
    scratch: &mut Scratch,
    line: &mut Vec<u8>,
    body: &[u8],
    status: StatusCode,
    reply: &[u8],
) -> Result<(), NoMemory>
    ensures ok { OnOk result (line.new.items
        ≡ line.old.items ++ decision_tail status (json_of body.now) reply.now) }
    ensures err { OnErr result (line.new.items ≡ line.old.items) }
    ensures len { OnErr result (vec_len line.new ≡ vec_len line.old) }
    ensures kept { vec_capacity line.old ≤ vec_capacity line.new }
{
    match names_in(alloc, scratch, body) {
        Ok(asked) => put_tail_with_names(line, status, asked.as_slice(), reply),
        Err(error) => Err(error),
    }
}

/// Ends the line of a request with the input `input`.
fn put_input_tail(
    alloc: Global,
    scratch: &mut Scratch,
    line: &mut Vec<u8>,
    input: &Input<'_>,
    status: StatusCode,
    reply: &[u8],
) -> Result<(), NoMemory>
    requires { vec_len line.old + MOST_TAIL ≤ vec_capacity line.old }
    ensures ok { OnOk result (line.new.items ≡ line.old.items ++ tail_of (Ok (input_of input.now)) status reply.now) }
    ensures err { OnErr result (line.new.items ≡ line.old.items) }
    ensures len { OnErr result (vec_len line.new ≡ vec_len line.old) }
    ensures decision { OnErr result (IsDecision (Ok (input_of input.now))) }
    ensures kept { vec_capacity line.old ≤ vec_capacity line.new }
{
    if status.as_u16() != 200 {
        put_plain_tail(line, status);
        return Ok(());
    }
    match input {
        Input::Authorize(body) => put_decision_tail(alloc, scratch, line, body, status, reply),
        Input::PutPolicy(_, _)
        | Input::DeletePolicy(_)
        | Input::PutEntity(_)
        | Input::DeleteEntity(_) => {
            put_stamp_tail(line, status, reply);
            Ok(())
        }
        Input::Take(_) | Input::GetPolicy(_) | Input::State | Input::Summary | Input::Delta(_) => {
            put_plain_tail(line, status);
            Ok(())
        }
    }
}

/// Ends the line of a request that asks for `route`, whose reply has `status` and the body `reply`. Requires spare
/// capacity for `MOST_TAIL` bytes. `scratch` is reused memory; its earlier content has no effect.
///
/// # Errors
///
/// - `NoMemory`: an allocation failed. Only the line of a decision with the status 200 needs one, since the body of the
///   request is parsed again for it. The line is then unchanged.
pub(crate) fn put_tail(
    alloc: Global,
    scratch: &mut Scratch,
    line: &mut Vec<u8>,
    route: &Route<'_>,
    status: StatusCode,
    reply: &[u8],
) -> Result<(), NoMemory>
    requires { vec_len line.old + MOST_TAIL ≤ vec_capacity line.old }
    ensures ok { OnOk result (line.new.items ≡ line.old.items ++ tail_of (asked_by route.now) status reply.now) }
    ensures err { OnErr result (line.new.items ≡ line.old.items) }
    ensures len { OnErr result (vec_len line.new ≡ vec_len line.old) }
    ensures decision { OnErr result (IsDecision (asked_by route.now)) }
    ensures kept { vec_capacity line.old ≤ vec_capacity line.new }
{
    match route {
        Route::Input(input) => put_input_tail(alloc, scratch, line, input, status, reply),
        Route::Status(_) => {
            put_plain_tail(line, status);
            Ok(())
        }
    }
}

/// Appends the line for rejected bytes, or for a request if memory ran out before anything was done. Requires spare
/// capacity for `MOST_UNREAD_LINE` bytes. Does not allocate.
pub(crate) fn put_unread_line(line: &mut Vec<u8>, status: StatusCode)
    requires room { vec_len line.old + MOST_UNREAD_LINE ≤ vec_capacity line.old }
    ensures items { line.new.items ≡ line.old.items ++ unread_line status }
    ensures kept { vec_capacity line.old ≤ vec_capacity line.new }
{
    append(line, b"{\"method\":null,\"target\":null");
    put_plain_tail(line, status);
}
