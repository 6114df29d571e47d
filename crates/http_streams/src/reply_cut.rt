//! Finds where the reply at the front of a stream ends.
ghost use Rattle.std.specs.Prelude.{◌≡◌, ◌≤◌, length, map, take, All};
ghost use Rattle.httparse.specs.Spans.{IsHeaderWithin, IsResponseOf, IsResponseWithin, header_bytes};
ghost use Rattle.http_streams.specs.Reply.{IsReplyCut, reply_length};

use crate::fields::{Announced, FieldValue, has_header, length_of, values_of};
use crate::limits::{first_bytes, has_too_many, is_cut_off};
use crate::{MAX_FIELDS, MAX_HEAD, MAX_REPLY};
use httparse::Status as Parsed;
use httparse::spans::{HeaderSpan, ResponseSpans, parse_response};

/// The byte offsets of the parts of a reply, and its status.
#[derive(Clone, Copy)]
pub struct ReplyParts {
    /// The three digits of the status, as a number.
    pub code: u16,
    /// The offset at which the body begins.
    pub body: usize,
    /// The offset at which the body ends.
    pub end: usize,
}

/// The result of cutting a reply off the front of some bytes.
#[derive(Clone, Copy)]
pub enum ReplyCut {
    /// The bytes begin with a whole reply, whose parts these are.
    Whole(ReplyParts),
    /// The bytes cannot begin a reply that has a valid length and is within the limits, whatever follows.
    Bad,
    /// The bytes are less than a reply, and remain so, whatever follows, until there are at least this many in all. The
    /// number is the length of head and body if the head is whole, else 0.
    Unfinished(usize),
}

/// Returns the length of the body of a reply, by its one Content-Length. The length is not valid if the reply has
/// Transfer-Encoding, or does not have exactly one Content-Length.
fn length_at(buf: &[u8], headers: &[HeaderSpan]) -> Announced
    requires { All (IsHeaderWithin (length buf.now)) headers.now }
    ensures { result ≡ reply_length (map (header_bytes buf.now) headers.now) }
{
    if has_header(buf, headers, b"transfer-encoding") {
        return Announced::NoNumber;
    }
    match values_of(buf, headers, b"content-length") {
        FieldValue::Once(text) => length_of(text, MAX_REPLY),
        _ => Announced::NoNumber,
    }
}

/// Cuts the front of `buf`, whose first bytes `seen` begin with a head; `headers` are the parsed fields of the head,
/// and `head` its other parts.
fn cut_reply_body(buf: &[u8], seen: &[u8], headers: &[HeaderSpan], head: &ResponseSpans) -> ReplyCut
    requires seen { seen.now ≡ take MAX_HEAD buf.now }
    requires few { length headers.now ≤ MAX_FIELDS }
    requires count { length headers.now ≡ head.now.headers }
    requires within { IsResponseWithin seen.now headers.now head.now }
    requires complete { IsResponseOf seen.now headers.now head.now }
    ensures { IsReplyCut buf.now result }
{
    let left = buf.len() - head.len;
    match length_at(seen, headers) {
        Announced::NoNumber => ReplyCut::Bad,
        Announced::TooLong => ReplyCut::Bad,
        Announced::Size(size) if is_cut_off(left, size) => ReplyCut::Unfinished(head.len + size),
        Announced::Size(size) => ReplyCut::Whole(ReplyParts {
            code: head.code,
            body: head.len,
            end: head.len + size,
        }),
    }
}

/// Cuts the front of `buf`: a whole reply, a bad one, or less than one.
///
/// `room` is memory for fields, one for each byte that a head may have, so that a head with too many fields is parsed
/// whole. Does not allocate.
pub fn cut_reply(buf: &[u8], room: &mut [HeaderSpan]) -> ReplyCut
    requires { MAX_HEAD ≤ length room.old }
    ensures { IsReplyCut buf.now result }
{
    let seen = first_bytes(buf);
    match parse_response(seen, room) {
        Ok(Parsed::Complete(head)) => {
            if has_too_many(head.headers) {
                return ReplyCut::Bad;
            }
            cut_reply_body(buf, seen, &room[..head.headers], &head)
        }
        Ok(Parsed::Partial) if buf.len() <= MAX_HEAD => ReplyCut::Unfinished(0),
        Ok(Parsed::Partial) => ReplyCut::Bad,
        Err(_) => ReplyCut::Bad,
    }
}
