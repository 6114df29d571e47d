//! Replies as a case prints them.
use crate::line::{Line, NO_MEMORY};
use http_service::{
    Answer, Found, Place, Put, Reply, Site, SiteFault, Stamp, Taken, answer_line, fault_place,
};
use std::alloc::Global;

/// Appends the place of an error, or `-` without one.
fn push_place(line: &mut Line, place: Option<Place>) {
    match place {
        Some(place) => line.push_number(place.number() as u64),
        None => line.push(b"-"),
    }
}

/// Appends the code of an inner error, or `-` without one.
fn push_within(line: &mut Line, within: Option<u8>) {
    match within {
        Some(code) => line.push_number(u64::from(code)),
        None => line.push(b"-"),
    }
}

/// Appends an error: its code, its place, and the code of its inner error.
fn push_error(line: &mut Line, code: u8, place: Option<Place>, within: Option<u8>) {
    line.push(b"refused ");
    line.push_number(u64::from(code));
    line.push(b" ");
    push_place(line, place);
    line.push(b" ");
    push_within(line, within);
}

/// Appends the error of a rejected input: its code, its place and the code of its inner error, or its message.
pub(crate) fn push_fault(line: &mut Line, fault: SiteFault) {
    if line.has_messages() {
        return line.push_shown(&fault);
    }
    push_error(line, fault.code(), fault_place(fault), fault.within());
}

/// Appends a stamp.
fn push_stamp(line: &mut Line, stamp: &Stamp) {
    line.push(b"(");
    line.push_number(stamp.count);
    line.push(b", ");
    line.push(stamp.site.as_bytes());
    line.push(b")");
}

/// Appends the outcome of the put of a policy.
fn push_put(line: &mut Line, put: &Put) {
    push_stamp(line, &put.stamp);
    if put.impossible {
        line.push(b" impossible");
    }
}

/// Appends the number of updates that a site applied. If it did not apply all, appends the error 1 with this number as
/// its place.
fn push_taken(line: &mut Line, taken: Taken) {
    match taken {
        Taken::All(count) => {
            line.push(b"taken ");
            line.push_number(count as u64);
        }
        Taken::Short(count) => push_error(line, 1, Some(Place::Taken(count)), None),
    }
}

/// Appends the answer to a request.
fn push_answer(alloc: Global, line: &mut Line, answer: &Answer) {
    match answer_line(alloc, answer) {
        Ok(bytes) => line.push(&bytes),
        Err(_) => line.push(NO_MEMORY),
    }
}

/// Appends the policy that was found, with its stamp.
fn push_found(line: &mut Line, found: &Option<Found>) {
    match found {
        Some(found) => {
            push_stamp(line, &found.stamp);
            line.push(b" ");
            line.push(found.text.as_str().as_bytes());
        }
        None => line.push(b"none"),
    }
}

/// Appends a message, with the number of its bytes.
fn push_message(line: &mut Line, bytes: &[u8]) {
    line.push_number(bytes.len() as u64);
    line.push(b" bytes ");
    line.push(bytes);
}

/// Appends the state of a site.
pub(crate) fn push_state(line: &mut Line, site: &Site) {
    match site.state() {
        Ok(bytes) => push_message(line, &bytes),
        Err(_) => line.push(NO_MEMORY),
    }
}

/// Appends whether the ancestor cache of a site is present, and whether its index of policies is.
pub(crate) fn push_caches(line: &mut Line, present_caches: (bool, bool)) {
    match present_caches {
        (true, true) => line.push(b"ancestors, index"),
        (true, false) => line.push(b"ancestors"),
        (false, true) => line.push(b"index"),
        (false, false) => line.push(b"neither"),
    }
}

/// Appends the reply to an input.
pub(crate) fn push_reply(alloc: Global, line: &mut Line, reply: &Reply) {
    match reply {
        Reply::Put(Ok(put)) => push_put(line, put),
        Reply::Stamped(Ok(stamp)) => push_stamp(line, stamp),
        Reply::Taken(Ok(taken)) => push_taken(line, *taken),
        Reply::Answered(Ok(answer)) => push_answer(alloc, line, answer),
        Reply::Found(Ok(found)) => push_found(line, found),
        Reply::Written(Ok(bytes)) => push_message(line, bytes.as_slice()),
        Reply::Put(Err(fault)) => push_fault(line, *fault),
        Reply::Stamped(Err(fault)) => push_fault(line, *fault),
        Reply::Taken(Err(fault)) => push_fault(line, *fault),
        Reply::Answered(Err(fault)) => push_fault(line, *fault),
        Reply::Found(Err(fault)) => push_fault(line, *fault),
        Reply::Written(Err(fault)) => push_fault(line, *fault),
    }
}
