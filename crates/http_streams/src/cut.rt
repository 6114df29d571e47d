//! Finds where the requests of a stream end.
ghost use Rattle.std.specs.Prelude.{◌≡◌, ◌≤◌, length, map, take, All};
ghost use Rattle.httparse.specs.Spans.{IsHeaderWithin, IsRequestOf, IsRequestWithin, header_bytes};
ghost use Rattle.http_streams.specs.Request.{IsCut, closes, framing, needs_length};

use crate::fields::{Announced, FieldValue, asks_to_close, has_header, length_of, values_of};
use crate::limits::{first_bytes, has_too_many, is_cut_off};
use crate::{MAX_BODY, MAX_FIELDS, MAX_HEAD};
use http::{Method, StatusCode};
use httparse::Status as Parsed;
use httparse::spans::{HeaderSpan, RequestSpans, Span, parse_request};

/// The length of a body, or the status with which its head is rejected.
#[derive(Clone, Copy)]
pub enum Framing {
    /// The body has this many bytes.
    Body(usize),
    /// The head is rejected with this status.
    Refused(StatusCode),
}

/// The byte offsets of the parts of a request.
#[derive(Clone, Copy)]
pub struct Parts {
    /// The offsets of the method.
    pub method: Span,
    /// The offsets of the target.
    pub target: Span,
    /// The offset at which the body begins.
    pub body: usize,
    /// The offset at which the body, and so the request, ends.
    pub end: usize,
    /// Whether the reply to this request is the last one.
    pub closes: bool,
}

/// The result of cutting a request off the front of some bytes.
#[derive(Clone, Copy)]
pub enum Cut {
    /// The bytes begin with a whole request, whose parts these are.
    Whole(Parts),
    /// The bytes are rejected with this status.
    Refused(StatusCode),
    /// The bytes are less than a request, and remain so, whatever follows, until there are at least this many in all.
    /// The number is the length of head and body if the head is whole, else 0.
    Unfinished(usize),
}

/// Returns whether a request with this method must announce its length.
fn needs_length(method: &[u8]) -> bool
    ensures { result ≡ needs_length method.now }
{
    method == Method::PUT.as_str().as_bytes() || method == Method::POST.as_str().as_bytes()
}

/// Returns the length of the body, or the status with which the head is rejected.
fn read_framing(buf: &[u8], headers: &[HeaderSpan], method: &[u8]) -> Framing
    requires { All (IsHeaderWithin (length buf.now)) headers.now }
    ensures { result ≡ framing method.now (map (header_bytes buf.now) headers.now) }
{
    if has_header(buf, headers, b"transfer-encoding") {
        return Framing::Refused(StatusCode::NOT_IMPLEMENTED);
    }
    match values_of(buf, headers, b"content-length") {
        FieldValue::Absent if needs_length(method) => Framing::Refused(StatusCode::LENGTH_REQUIRED),
        FieldValue::Absent => Framing::Body(0),
        FieldValue::Once(text) => match length_of(text, MAX_BODY) {
            Announced::Size(size) => Framing::Body(size),
            Announced::TooLong => Framing::Refused(StatusCode::PAYLOAD_TOO_LARGE),
            Announced::NoNumber => Framing::Refused(StatusCode::BAD_REQUEST),
        },
        FieldValue::Many => Framing::Refused(StatusCode::BAD_REQUEST),
    }
}

/// Returns whether the connection ends after the request.
fn closes(buf: &[u8], headers: &[HeaderSpan], minor: u8) -> bool
    requires { All (IsHeaderWithin (length buf.now)) headers.now }
    ensures { result ≡ closes minor (map (header_bytes buf.now) headers.now) }
{
    if minor == 0 {
        return true;
    }
    for header in headers {
        if asks_to_close(buf, header) {
            return true;
        }
    }
    false
}

/// Cuts the front of `buf`, whose first bytes `seen` begin with a head; `headers` are the parsed fields of the head,
/// and `head` its other parts.
fn cut_body(buf: &[u8], seen: &[u8], headers: &[HeaderSpan], head: &RequestSpans) -> Cut
    requires seen { seen.now ≡ take MAX_HEAD buf.now }
    requires few { length headers.now ≤ MAX_FIELDS }
    requires count { length headers.now ≡ head.now.headers }
    requires within { IsRequestWithin seen.now headers.now head.now }
    requires complete { IsRequestOf seen.now headers.now head.now }
    ensures { IsCut buf.now result }
{
    let left = buf.len() - head.len;
    match read_framing(seen, headers, head.method.of(seen)) {
        Framing::Refused(status) => Cut::Refused(status),
        Framing::Body(size) => {
            if is_cut_off(left, size) {
                return Cut::Unfinished(head.len + size);
            }
            Cut::Whole(Parts {
                method: head.method,
                target: head.path,
                body: head.len,
                end: head.len + size,
                closes: closes(seen, headers, head.version),
            })
        }
    }
}

/// Cuts the front of `buf`: a whole request, a rejected one, or less than one.
///
/// `room` is memory for fields, one for each byte that a head may have, so that a head with too many fields is parsed
/// whole. Does not allocate.
pub fn cut_request(buf: &[u8], room: &mut [HeaderSpan]) -> Cut
    requires { MAX_HEAD ≤ length room.old }
    ensures { IsCut buf.now result }
{
    let seen = first_bytes(buf);
    match parse_request(seen, room) {
        Ok(Parsed::Complete(head)) => {
            if has_too_many(head.headers) {
                return Cut::Refused(StatusCode::BAD_REQUEST);
            }
            cut_body(buf, seen, &room[..head.headers], &head)
        }
        Ok(Parsed::Partial) if buf.len() <= MAX_HEAD => Cut::Unfinished(0),
        Ok(Parsed::Partial) => Cut::Refused(StatusCode::BAD_REQUEST),
        Err(_) => Cut::Refused(StatusCode::BAD_REQUEST),
    }
}
