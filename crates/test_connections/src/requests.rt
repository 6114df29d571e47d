//! Requests of HTTP at the front of some bytes, answered by a framed service.
ghost use Rattle.std.specs.Prelude.{◌≡◌, ◌≤◌, ◌∷◌, [], ⊤};
ghost use Rattle.std.specs.Vec.{vec_capacity};

use connections::service::{CommitFailed, Outcome, Service};
use connections::{LINE_ROOM, REPLY_ROOM};
use http::StatusCode;
use http_streams::framed::Framed;
use http_streams::room_for_heads;
use http_streams::service::Answers;
use std::alloc::{AllocError, Global};
use std::test::Fail;

/// Answers each request by its body, with the method as its line. The target `/huge` asks for more memory than there
/// is, and is answered by 503.
#[derive(Drop)]
struct Echo;

impl Answers for Echo {
    ghost answers = { λ old method target body status reply new. ⊤ };
}

impl http_streams::service::Service for Echo {
    ghost lines = { λ method target body status reply line. ⊤ };

    ghost refusal_line = { λ status. 45 ∷ [] };

    ghost line_room = { 1 };

    fn call(
        &mut self,
        method: &[u8],
        target: &[u8],
        body: &[u8],
        text: &mut Vec<u8>,
        line: &mut Vec<u8>,
    ) -> StatusCode {
        match line.extend_from_slice(method) {
            Ok(()) | Err(_) => {}
        }
        if target == b"/huge".as_slice() && text.reserve(usize::MAX / 2).is_err() {
            return StatusCode::SERVICE_UNAVAILABLE;
        }
        match text.extend_from_slice(body) {
            Ok(()) => StatusCode::OK,
            Err(_) => StatusCode::SERVICE_UNAVAILABLE,
        }
    }

    fn put_refusal_line(_status: StatusCode, line: &mut Vec<u8>)
        requires empty { line.old.items ≡ [] }
        requires room { 1 ≤ vec_capacity line.old }
        ensures line { line.new.items ≡ 45 ∷ [] }
        ensures kept { vec_capacity line.old ≤ vec_capacity line.new }
    {
        line.extend_from_slice(b"-").unwrap();
    }

    fn commit(&mut self) -> Result<(), CommitFailed> {
        Ok(())
    }
}

/// Returns what was found: the size of the request, with `!` if its reply is the last, or `<` and the number of bytes
/// below which it remains unfinished; then its line, and its reply.
fn outcome(alloc: Global, bytes: &[u8]) -> Result<Vec<u8>, AllocError> {
    let mut framed = Framed::new(Echo, room_for_heads(alloc)?);
    let mut out = Vec::with_capacity(alloc, REPLY_ROOM)?;
    let mut line = Vec::with_capacity(alloc, LINE_ROOM)?;
    let found = match framed.answer(bytes, &mut out, &mut line) {
        Outcome::Answered(size, true) => format!(in alloc; "{size}! ")?,
        Outcome::Answered(size, false) => format!(in alloc; "{size} ")?,
        Outcome::Unfinished(needed) => format!(in alloc; "<{needed} ")?,
    };
    let mut shown = Vec::from_slice(alloc, found.as_bytes())?;
    shown.extend_from_slice(&line)?;
    shown.extend_from_slice(b" ")?;
    shown.extend_from_slice(&out)?;
    Ok(shown)
}

#[test]
fn requests_have_their_replies(rt: HostRuntime) -> Result<(), Fail> {
    let rows = [
        (
            &b"POST /a HTTP/1.1\r\nContent-Length: 2\r\n\r\n{}GET"[..],
            &b"41 POST HTTP/1.1 200 OK\r\nContent-Type: application/json\r\nContent-Length: 2\r\n\r\n{}"[..],
        ),
        (
            &b"GET / HTTP/1.0\r\n\r\n"[..],
            &b"18! GET HTTP/1.1 200 OK\r\nContent-Type: application/json\r\nContent-Length: 0\r\n\
            Connection: close\r\n\r\n"[..],
        ),
        (
            &b"GET / HTTP/1.1\r\nConnection: close\r\n\r\nGET"[..],
            &b"37! GET HTTP/1.1 200 OK\r\nContent-Type: application/json\r\nContent-Length: 0\r\n\
            Connection: close\r\n\r\n"[..],
        ),
        (
            &b"PUT /a HTTP/1.1\r\n\r\nGET"[..],
            &b"22! - HTTP/1.1 411 Length Required\r\nContent-Type: application/json\r\nContent-Length: 49\r\n\
            Connection: close\r\n\r\n{\"error\":{\"code\":411,\"place\":null,\"within\":null}}"[..],
        ),
        (&b"GET / HT"[..], &b"<9  "[..]),
        (
            &b"POST /a HTTP/1.1\r\nContent-Length: 9\r\n\r\n{}"[..],
            &b"<48  "[..],
        ),
    ];
    for (bytes, wanted) in rows {
        assert_eq!(rt; outcome(rt.alloc(), bytes)?.as_slice(), wanted);
    }
    Ok(())
}

#[test]
fn a_failed_allocation_is_answered(rt: HostRuntime) -> Result<(), Fail> {
    let wanted = b"22 GET HTTP/1.1 503 Service Unavailable\r\nContent-Type: application/json\r\n\
        Content-Length: 0\r\n\r\n";
    assert_eq!(rt;
        outcome(rt.alloc(), b"GET /huge HTTP/1.1\r\n\r\n")?.as_slice(),
        wanted.as_slice()
    );
    Ok(())
}
