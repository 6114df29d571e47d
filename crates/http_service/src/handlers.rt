//! Replies to requests by what they ask for. A request makes at most one step of the site.
ghost use Rattle.std.specs.Prelude.{◌≡◌, ◌≤◌, ◌+◌, [], vec_len};
ghost use Rattle.std.specs.Vec.{vec_capacity};
ghost use Rattle.http_streams.specs.declared.TheConstants.{REPLY_ROOM};
ghost use Rattle.http_service.specs.Routes.{asked_by, route_stated};
ghost use Rattle.http_service.specs.declared.TheConstants.{MOST_TAIL, MOST_UNREAD_LINE};
ghost use Rattle.http_service.specs.inner.AppendedAnswers.{AppendsTo, AnswersWithLine, AnswersWithTail};
ghost use Rattle.http_service.specs.inner.AppendedAnswers.{IsUndoneReply};

use crate::log_line::{put_head, put_plain_tail, put_tail, put_unread_line};
use crate::route::Route;
use crate::routing::route_of;
use http::StatusCode;
use http_replies::{Site, SiteFault, reply_to, report_fault, report_status};
use json_words::Scratch;
use std::alloc::Global;

/// Answers a request that asks for `route`: appends the body of the reply to `text`, and returns the status.
fn answer_route(
    alloc: Global,
    scratch: &mut Scratch,
    site: &mut Site,
    route: &Route<'_>,
    text: &mut Vec<u8>,
) -> StatusCode
    requires room { vec_len text.old + REPLY_ROOM ≤ vec_capacity text.old }
    ensures reply { AppendsTo site.old (asked_by route.now) result text.old.items text.new.items site.new }
    ensures kept { vec_capacity text.old ≤ vec_capacity text.new }
{
    match route {
        Route::Input(input) => reply_to(alloc, scratch, site, input, text),
        Route::Status(status) => report_status(text, *status),
    }
}

/// Answers a request: makes at most one step of the site, appends the body of the reply to `text`, and returns the
/// status. `scratch` is reused memory; its earlier content has no effect.
pub(crate) fn answer(
    alloc: Global,
    scratch: &mut Scratch,
    site: &mut Site,
    method: &[u8],
    target: &[u8],
    body: &[u8],
    text: &mut Vec<u8>,
) -> StatusCode
    requires room { vec_len text.old + REPLY_ROOM ≤ vec_capacity text.old }
    ensures reply { AppendsTo site.old (route_stated method.now target.now body.now) result text.old.items
        text.new.items site.new }
    ensures kept { vec_capacity text.old ≤ vec_capacity text.new }
{
    let mut id = Vec::new(alloc);
    match route_of(method, target, body, &mut id) {
        Ok(route) => answer_route(alloc, scratch, site, &route, text),
        Err(_) => report_fault(text, SiteFault::NoMemory),
    }
}

// ---- with a log: `line` gets method and target before the site is called, and all else once `text` has the reply

/// Reports that an allocation failed before the site made a step; for a request that asks for no operation, reports its
/// status instead.
fn report_no_memory(route: &Route<'_>, text: &mut Vec<u8>) -> StatusCode
    requires room { vec_len text.old + REPLY_ROOM ≤ vec_capacity text.old }
    ensures reply { IsUndoneReply (asked_by route.now) result text.old.items text.new.items }
    ensures kept { vec_capacity text.old ≤ vec_capacity text.new }
{
    match route {
        Route::Input(_) => report_fault(text, SiteFault::NoMemory),
        Route::Status(status) => report_status(text, *status),
    }
}

/// Answers a request that asks for `route`, and appends the rest of its log line to `line`. If the rest of a decision's
/// line cannot be allocated, the reply is the error 1 (out of memory, status 503) instead of the decision, and `line`
/// gets only this status.
fn answer_logged(
    alloc: Global,
    scratch: &mut Scratch,
    site: &mut Site,
    route: &Route<'_>,
    text: &mut Vec<u8>,
    line: &mut Vec<u8>,
) -> StatusCode
    requires room { vec_len text.old + REPLY_ROOM ≤ vec_capacity text.old }
    requires tail { vec_len line.old + MOST_TAIL ≤ vec_capacity line.old }
    ensures reply { AnswersWithTail site.old (asked_by route.now) result text.old.items text.new.items line.old.items
        line.new.items site.new }
    ensures kept { vec_capacity text.old ≤ vec_capacity text.new }
    ensures line_kept { vec_capacity line.old ≤ vec_capacity line.new }
{
    let before = text.len();
    let status = answer_route(alloc, scratch, site, route, text);
    match put_tail(alloc, scratch, line, route, status, &text[before..]) {
        Ok(()) => status,
        Err(_) => {
            text.truncate(before);
            let status = report_fault(text, SiteFault::NoMemory);
            put_plain_tail(line, status);
            status
        }
    }
}

/// Answers a request as [`answer`] does, and puts its log line into `line`. If the end of a decision's line can't be
/// allocated, the reply is error 1 instead. If the route or the beginning of the log line (method and target) can't be
/// allocated, the site makes no step, and the line has null for method and target. The reply is then 404 or 405 if the
/// request asks for no operation, else error 1.
pub(crate) fn answer_with_line(
    alloc: Global,
    scratch: &mut Scratch,
    site: &mut Site,
    method: &[u8],
    target: &[u8],
    body: &[u8],
    text: &mut Vec<u8>,
    line: &mut Vec<u8>,
) -> StatusCode
    requires room { vec_len text.old + REPLY_ROOM ≤ vec_capacity text.old }
    requires empty { line.old.items ≡ [] }
    requires line_room { MOST_UNREAD_LINE ≤ vec_capacity line.old }
    ensures reply { AnswersWithLine site.old method.now target.now body.now result text.old.items text.new.items
        line.new.items site.new }
    ensures kept { vec_capacity text.old ≤ vec_capacity text.new }
    ensures line_kept { vec_capacity line.old ≤ vec_capacity line.new }
{
    let mut id = Vec::new(alloc);
    let Ok(route) = route_of(method, target, body, &mut id) else {
        let status = report_fault(text, SiteFault::NoMemory);
        put_unread_line(line, status);
        return status;
    };
    match put_head(alloc, line, method, target) {
        Ok(()) => answer_logged(alloc, scratch, site, &route, text, line),
        Err(_) => {
            let status = report_no_memory(&route, text);
            put_unread_line(line, status);
            status
        }
    }
}
