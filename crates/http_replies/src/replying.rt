//! Replies of a site, each reported by a status and a body.
ghost use Rattle.std.specs.Prelude.{◌≤◌, ◌+◌, vec_len, Ok};
ghost use Rattle.std.specs.Vec.{vec_capacity};
ghost use Rattle.http_replies.specs.inner.Reporting.{Reports};

use crate::{
    LINE_ROOM, report_answer, report_fault, report_found, report_message, report_put, report_stamp,
    report_taken,
};
use http::StatusCode;
use site::{Found, Reply};
use std::alloc::Global;

/// Reports the result of looking up a policy.
fn report_policy(alloc: Global, text: &mut Vec<u8>, found: &Option<Found>) -> StatusCode
    requires room { vec_len text.old + LINE_ROOM ≤ vec_capacity text.old }
    ensures reply { Reports (Reply.Found (Ok found.now)) result text.old.items text.new.items }
    ensures kept { vec_capacity text.old ≤ vec_capacity text.new }
{
    match found {
        Some(policy) => {
            let shown = Some((policy.text.as_str(), policy.stamp));
            report_found(alloc, text, &shown)
        }
        None => report_found(alloc, text, &None),
    }
}

/// Appends the body of a reply, and returns its status. If the body of a query's reply cannot be allocated, appends the
/// error 1 (out of memory) in its place, and returns 503.
pub(crate) fn report_reply(alloc: Global, text: &mut Vec<u8>, reply: &Reply) -> StatusCode
    requires room { vec_len text.old + LINE_ROOM ≤ vec_capacity text.old }
    ensures reply { Reports reply.now result text.old.items text.new.items }
    ensures kept { vec_capacity text.old ≤ vec_capacity text.new }
{
    match reply {
        Reply::Put(outcome) => report_put(text, *outcome),
        Reply::Stamped(outcome) => report_stamp(text, *outcome),
        Reply::Taken(outcome) => report_taken(text, *outcome),
        Reply::Answered(outcome) => report_answer(alloc, text, outcome),
        Reply::Found(Ok(found)) => report_policy(alloc, text, found),
        Reply::Found(Err(fault)) => report_fault(text, *fault),
        Reply::Written(outcome) => report_message(text, outcome),
    }
}
