//! A service of HTTP requests as a service of many connections.
ghost use Rattle.std.specs.Prelude.{◌≡◌, ◌≤◌, ◌<◌, ◌+◌, ℕ, true, [], drop, length, vec_len};
ghost use Rattle.std.specs.Vec.{vec_capacity};
ghost use Rattle.http_streams.specs.FramedRequests.{AnswersBytes, IsLineOf, IsRequest, has_line};
ghost use Rattle.http_streams.specs.ReplyText.{error_line, reply_text};
ghost use Rattle.http_streams.specs.Request.{IsUnfinished, IsUnfinishedBelow, IsWholeAt};
ghost use Rattle.http_streams.specs.Stream.{Exchanges};
ghost use Rattle.http_streams.specs.declared.TheConstants.{MAX_HEAD, REPLY_ROOM};
ghost use Rattle.connections.specs.declared.TheConstants.{LINE_ROOM};

use crate::buffers::drop_front;
use crate::cut::{Cut, Parts, cut_request};
use crate::reply::{HEAD_ROOM, REFUSAL_ROOM, put_head, put_refusal};
use crate::service::Service;
use connections::service::{CommitFailed, Outcome};
use http::StatusCode;
use httparse::spans::HeaderSpan;
use std::marker::Model;

/// A service of HTTP requests that cuts them off the front of bytes. Contracts see the service.
#[derive(Drop)]
pub struct Framed<S: Service> {
    service: S,
    // memory for the fields of a head
    room: Vec<HeaderSpan>,
}

impl<S: Service> Model for Framed<S> {
    ghost use Rattle.std.specs.Prelude.{◌≤◌, vec_len};
    ghost use Rattle.http_streams.specs.declared.TheConstants.{MAX_HEAD};
    ghost use Rattle.connections.specs.declared.TheConstants.{LINE_ROOM};

    ghost Value = { S };

    ghost view = { λ f. f.service };

    ghost invariant = { λ f. (MAX_HEAD ≤ vec_len f.room) × (S.line_room ≤ LINE_ROOM) };
}

impl<S: Service> Framed<S> {
    /// Creates a service over `service`, with `room` for the fields of a head, as from [`crate::room_for_heads`].
    pub fn new(service: S, room: Vec<HeaderSpan>) -> Framed<S>
        requires heads { MAX_HEAD ≤ vec_len room }
        requires line_room { S.line_room ≤ LINE_ROOM }
        ensures { result ≡ service }
    {
        Framed { service, room }
    }

    /// Returns the service.
    pub fn into_service(self) -> S
        ensures { result ≡ self }
    {
        self.service
    }
}

/// Answers the whole request at the front of `bytes`, whose parts these are: puts the reply into `out`, and its line
/// into `line`. The body is written behind room for its head, so the reply is moved once, to the front of `out`.
fn reply<S: Service>(
    service: &mut S,
    bytes: &[u8],
    parts: &Parts,
    out: &mut Vec<u8>,
    line: &mut Vec<u8>,
)
    requires whole { IsWholeAt bytes.now parts.now }
    requires empty { out.old.items ≡ [] }
    requires no_line { line.old.items ≡ [] }
    requires room { HEAD_ROOM + REPLY_ROOM ≤ vec_capacity out.old }
    requires line_room { S.line_room ≤ vec_capacity line.old }
    ensures answered { Exchanges S.answers service.old bytes.now parts.now.closes out.new.items service.new
        (drop parts.now.end bytes.now) }
    ensures noted { Exchanges (has_line S.lines S.refusal_line line.new.items) tt bytes.now parts.now.closes
        out.new.items tt (drop parts.now.end bytes.now) }
    ensures kept { vec_capacity out.old ≤ vec_capacity out.new }
    ensures line_kept { vec_capacity line.old ≤ vec_capacity line.new }
{
    out.extend_from_slice(&[0; HEAD_ROOM]).unwrap();
    let method = parts.method.of(bytes);
    let target = parts.target.of(bytes);
    let body = &bytes[parts.body..parts.end];
    let status = service.call(method, target, body, out, line);
    let start = put_head(out.as_mut_slice(), HEAD_ROOM, parts.closes, status);
    drop_front(out, start);
}

/// Rejects bytes with `status`: puts the reply, which ends the connection, into `out`, and its line into `line`. Does
/// not allocate.
fn refuse<S: Service>(status: StatusCode, out: &mut Vec<u8>, line: &mut Vec<u8>)
    requires empty { out.old.items ≡ [] }
    requires no_line { line.old.items ≡ [] }
    requires room { REFUSAL_ROOM ≤ vec_capacity out.old }
    requires line_room { S.line_room ≤ vec_capacity line.old }
    ensures reply { out.new.items ≡ reply_text true status (error_line status) }
    ensures line { line.new.items ≡ S.refusal_line status }
    ensures kept { vec_capacity out.old ≤ vec_capacity out.new }
    ensures line_kept { vec_capacity line.old ≤ vec_capacity line.new }
{
    S::put_refusal_line(status, line);
    out.extend_from_slice(&[0; REFUSAL_ROOM]).unwrap();
    let start = put_refusal(out.as_mut_slice(), status);
    drop_front(out, start);
}

/// Returns a number, more than there are bytes, below which `bytes` remain less than a request, as they do below
/// `needed`.
fn more_needed(bytes: &[u8], needed: usize) -> usize
    requires { IsUnfinishedBelow bytes.now needed }
    ensures more { length bytes.now < result }
    ensures below { IsUnfinishedBelow bytes.now result }
{
    needed.max(bytes.len() + 1)
}

impl<S: Service> connections::service::Service for Framed<S> {
    ghost use Rattle.http_streams.specs.RequestLaws.{no_request, prefix_free, requests, short};

    ghost is_request = { IsRequest };

    ghost is_unfinished = { IsUnfinished };

    ghost answers = { AnswersBytes S.answers };

    ghost lines = { IsLineOf S.lines S.refusal_line };

    ghost commits = { S.commits };

    ghost commit_fails = { S.commit_fails };

    fn answer(&mut self, bytes: &[u8], out: &mut Vec<u8>, line: &mut Vec<u8>) -> Outcome {
        match cut_request(bytes, &mut self.room) {
            Cut::Whole(parts) => {
                reply(&mut self.service, bytes, &parts, out, line);
                Outcome::Answered(parts.end, parts.closes)
            }
            Cut::Refused(status) => {
                refuse::<S>(status, out, line);
                Outcome::Answered(bytes.len(), true)
            }
            Cut::Unfinished(needed) => Outcome::Unfinished(more_needed(bytes, needed)),
        }
    }

    fn commit(&mut self) -> Result<(), CommitFailed> {
        self.service.commit()
    }

    ghost prefix_free = { prefix_free };

    ghost no_request = { no_request };

    ghost short = { short };

    ghost requests = { requests S.answers };
}
