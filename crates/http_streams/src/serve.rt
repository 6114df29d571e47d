//! Answers the requests of a stream.
ghost use Rattle.std.specs.Prelude.{◌≡◌, ◌≤◌, ◌<◌, ◌+◌, ◌⊎◌, ℕ, List, ◌++◌, [], true, Err, length, drop, Ok};
ghost use Rattle.std.specs.Prelude.{None, OnOk, IfErr, IfOk, IfSome, vec_len};
ghost use Rattle.std.specs.Vec.{vec_capacity};
ghost use Rattle.std.specs.Io.KnownBytes.{Appends};
ghost use Rattle.http_streams.specs.Devices.{FailsAtLast};
ghost use Rattle.http_streams.specs.ReplyText.{error_line, reply_text};
ghost use Rattle.http_streams.specs.Request.{IsUnfinishedBelow, IsWholeAt};
ghost use Rattle.http_streams.specs.Logs.{AreNoted, IsLastNoted, IsLogged, notes};
ghost use Rattle.http_streams.specs.Serving.{IsAnswered, as_logged};
ghost use Rattle.http_streams.specs.Stream.{EndsByReply, Exchanges, RepliesInPart, Serves, StopsWithinReply};
ghost use Rattle.http_streams.specs.inner.Sending.{IsSentInPart, fault_of};
ghost use Rattle.http_streams.specs.declared.TheConstants.{REPLY_ROOM};

use crate::buffers::{
    FillFault, drop_front, read_more, room_for_heads, room_for_reads, room_for_replies,
};
use crate::cut::{Cut, Parts, cut_request};
use crate::devices::{Sink, Source, write_all};
use crate::nowhere::Nowhere;
use crate::reply::{HEAD_ROOM, REFUSAL_ROOM, put_head, put_refusal};
use crate::service::Service;
use crate::{MAX_HEAD, MAX_READ};
use http::StatusCode;
use httparse::spans::HeaderSpan;
use std::alloc::{AllocError, Global};
use thiserror::Error;

/// The reason why a stream was not answered to its end.
#[derive(Clone, Copy, Debug, Error)]
pub enum StreamFault {
    /// The reader failed, or gave `u64::MAX` bytes or more.
    #[error("network 70: reading failed")]
    Read,
    /// The writer failed.
    #[error("network 71: writing failed")]
    Write,
    /// An allocation failed, before the first or a later read. A reply allocates only what its service allocates.
    #[error("network 1: out of memory")]
    NoMemory,
}

/// The reason why a stream with a log was not answered to its end.
#[derive(Clone, Copy, Debug, Error)]
pub enum LoggedFault {
    /// A reason that a stream without a log has too.
    #[error(transparent)]
    Stream(StreamFault),
    /// The log failed: the line of a reply was not written whole, and nothing of that reply was sent.
    #[error("network 76: writing the log failed")]
    Log,
}

/// Answers each whole request of the stream in order, before reading on, and returns at the end of the input or after a
/// reply that ends the stream.
///
/// Whatever the result, the written bytes are the replies to the first requests that were read, the last perhaps cut
/// off. Memory is allocated before bytes are read; a reply allocates only what its service allocates. The `line_room`
/// of the service must be 0, since no memory for lines is reserved.
///
/// # Errors
///
/// - [`StreamFault::NoMemory`] (1): an allocation failed, before the first or a later read.
/// - [`StreamFault::Read`] (70): the reader failed, or gave `u64::MAX` bytes or more; all complete requests are
///   answered.
/// - [`StreamFault::Write`] (71): the writer failed; perhaps a part of the last reply was sent.
pub fn serve<S: Service, R: Source, W: Sink>(
    alloc: Global,
    service: &mut S,
    reader: &mut R,
    writer: &mut W,
) -> Result<(), StreamFault>
    requires { S.line_room ≡ 0 }
    ensures { IsAnswered S.answers R.left R.failed R.reads R.fails W.holds W.failed W.fails reader.old
        reader.new writer.old writer.new service.old service.new (as_logged result) }
{
    let mut line = Vec::new(alloc);
    match serve_logged(alloc, service, reader, writer, &mut Nowhere, &mut line) {
        Ok(()) => Ok(()),
        Err(LoggedFault::Stream(fault)) => Err(fault),
        Err(LoggedFault::Log) => unreachable!(),
    }
}

/// Answers a stream like [`serve`], with a log: the line of each reply, also of a rejection, is written to `log` before
/// anything of the reply is sent. `line` is memory for one line, with capacity for the `line_room` of the service.
///
/// # Errors
///
/// - [`LoggedFault::Stream`]: an error of [`serve`].
/// - [`LoggedFault::Log`] (76), checked before `Write`: the line of a reply was not written whole; nothing of that
///   reply was sent.
pub fn serve_logged<S: Service, R: Source, W: Sink, L: Sink>(
    alloc: Global,
    service: &mut S,
    reader: &mut R,
    writer: &mut W,
    log: &mut L,
    line: &mut Vec<u8>,
) -> Result<(), LoggedFault>
    requires { S.line_room ≤ vec_capacity line.old }
    ensures answered { IsAnswered S.answers R.left R.failed R.reads R.fails W.holds W.failed W.fails reader.old
        reader.new writer.old writer.new service.old service.new result }
    ensures logged { IsLogged S.lines S.refusal_line L.holds L.failed L.fails R.left W.holds reader.old reader.new
        writer.old writer.new log.old log.new result }
{
    let Ok((mut room, mut chunk, mut text)) = rooms(alloc) else {
        return Err(LoggedFault::Stream(StreamFault::NoMemory));
    };
    let mut buffer = Vec::new(alloc);
    answer_stream(
        service,
        reader,
        writer,
        log,
        &mut room,
        &mut chunk,
        &mut text,
        line,
        &mut buffer,
    )
}

/// Returns memory for the parts of a head, for the bytes of one read, and for a reply.
fn rooms(alloc: Global) -> Result<(Vec<HeaderSpan>, Vec<u8>, Vec<u8>), AllocError>
    ensures heads { IfOk result (λ rooms. MAX_HEAD ≤ vec_len rooms.0) }
    ensures some { IfOk result (λ rooms. 0 < vec_len rooms.1) }
    ensures most { IfOk result (λ rooms. vec_len rooms.1 ≤ MAX_READ) }
    ensures head { IfOk result (λ rooms. HEAD_ROOM ≤ vec_len rooms.2) }
    ensures room { IfOk result (λ rooms. HEAD_ROOM + REPLY_ROOM ≤ vec_capacity rooms.2) }
{
    let heads = room_for_heads(alloc)?;
    let reads = room_for_reads(alloc)?;
    let replies = room_for_replies(alloc)?;
    Ok((heads, reads, replies))
}

/// The rest of some bytes after the whole requests at the front.
#[derive(Clone, Copy)]
struct Unanswered {
    /// The index of its first byte.
    at: usize,
    /// The rest is less than a request while it has fewer bytes than this.
    needed: usize,
}

/// Reads and answers in turns, in given memory. `buffer` has the bytes that are read and not yet answered. `room`,
/// `chunk`, `text` and `line` are memory for the fields of a head, one read, one reply and one line of the log.
fn answer_stream<S: Service, R: Source, W: Sink, L: Sink>(
    service: &mut S,
    reader: &mut R,
    writer: &mut W,
    log: &mut L,
    room: &mut [HeaderSpan],
    chunk: &mut [u8],
    text: &mut Vec<u8>,
    line: &mut Vec<u8>,
    buffer: &mut Vec<u8>,
) -> Result<(), LoggedFault>
    requires heads { MAX_HEAD ≤ length room.old }
    requires some { 0 < length chunk.old }
    requires most { length chunk.old ≤ MAX_READ }
    requires head { HEAD_ROOM ≤ vec_len text.old }
    requires room { HEAD_ROOM + REPLY_ROOM ≤ vec_capacity text.old }
    requires line_room { S.line_room ≤ vec_capacity line.old }
    requires empty { buffer.old.items ≡ [] }
    ensures answered { IsAnswered S.answers R.left R.failed R.reads R.fails W.holds W.failed W.fails reader.old
        reader.new writer.old writer.new service.old service.new result }
    ensures logged { IsLogged S.lines S.refusal_line L.holds L.failed L.fails R.left W.holds reader.old reader.new
        writer.old writer.new log.old log.new result }
{
    let mut needed = 0;
    for turn in 0..u64::MAX {
        match read_more(reader, chunk, buffer) {
            Ok(true) => {}
            Ok(false) => return Ok(()),
            Err(FillFault::Read) => return Err(LoggedFault::Stream(StreamFault::Read)),
            Err(FillFault::NoMemory) => return Err(LoggedFault::Stream(StreamFault::NoMemory)),
        }
        if buffer.len() < needed {
            // a whole head determines where the request ends, so it is not parsed again with each piece of the body
            continue;
        }
        match answer_all(service, writer, log, buffer, room, text, line) {
            Ok(Some(left)) => {
                drop_front(buffer, left.at);
                needed = left.needed;
            }
            Ok(None) => return Ok(()),
            Err(Broken::Write) => return Err(LoggedFault::Stream(StreamFault::Write)),
            Err(Broken::Log) => return Err(LoggedFault::Log),
        }
    }
    // each turn read at least one byte, so the reader gave at least `u64::MAX` bytes
    Err(LoggedFault::Stream(StreamFault::Read))
}

/// The device that failed before a whole reply was sent.
#[derive(Clone, Copy)]
enum Broken {
    /// The writer, after the reply's line was written.
    Write,
    /// The log, before anything of the reply was sent.
    Log,
}

/// Puts the head of a reply before the body in `text`, and returns the index of the reply's first byte.
fn finish(text: &mut Vec<u8>, last: bool, status: StatusCode) -> usize
    requires { HEAD_ROOM ≤ vec_len text.old }
    ensures start { result ≤ vec_len text.new }
    ensures text { drop result text.new.items ≡ reply_text last status (drop HEAD_ROOM text.old.items) }
    ensures len { vec_len text.new ≡ vec_len text.old }
    ensures capacity { vec_capacity text.new ≡ vec_capacity text.old }
{
    put_head(text.as_mut_slice(), HEAD_ROOM, last, status)
}

/// Writes the line of a reply to the log, and then the reply.
fn send<W: Sink, L: Sink>(
    writer: &mut W,
    log: &mut L,
    line: &[u8],
    reply: &[u8],
) -> Result<(), Broken>
    ensures ok { OnOk result (Appends (L.holds log.old) (L.holds log.new) line.now
        × Appends (W.holds writer.old) (W.holds writer.new) reply.now) }
    ensures err { IfErr result (λ broken. IsSentInPart broken L.holds W.holds line.now reply.now log.old log.new
        writer.old writer.new) }
    ensures write { result ≡ Err Broken.Write → FailsAtLast W.failed W.fails writer.old writer.new
        × (L.failed log.new ≡ L.failed log.old) }
    ensures log { result ≡ Err Broken.Log → FailsAtLast L.failed L.fails log.old log.new
        × (W.failed writer.new ≡ W.failed writer.old) }
    ensures count { OnOk result ((W.failed writer.new ≡ W.failed writer.old) × (L.failed log.new ≡ L.failed log.old)) }
{
    match write_all(log, line) {
        Ok(()) => {}
        Err(_) => return Err(Broken::Log),
    }
    match write_all(writer, reply) {
        Ok(()) => Ok(()),
        Err(_) => Err(Broken::Write),
    }
}

/// Answers one request, by one write if the writer accepts the whole reply. `text` has memory for the head and a short
/// body, so only the service may allocate.
fn answer<S: Service, W: Sink, L: Sink>(
    service: &mut S,
    writer: &mut W,
    log: &mut L,
    bytes: &[u8],
    parts: &Parts,
    text: &mut Vec<u8>,
    line: &mut Vec<u8>,
) -> Result<(), Broken>
    requires whole { IsWholeAt bytes.now parts.now }
    requires head { HEAD_ROOM ≤ vec_len text.old }
    requires room { HEAD_ROOM + REPLY_ROOM ≤ vec_capacity text.old }
    requires line_room { S.line_room ≤ vec_capacity line.old }
    ensures head { HEAD_ROOM ≤ vec_len text.new }
    ensures room { HEAD_ROOM + REPLY_ROOM ≤ vec_capacity text.new }
    ensures line_room { S.line_room ≤ vec_capacity line.new }
    ensures ok { OnOk result ((out : List ℕ) × Appends (W.holds writer.old) (W.holds writer.new) out
        × Exchanges S.answers service.old bytes.now parts.now.closes out service.new (drop parts.now.end bytes.now)
        × Exchanges (notes S.lines L.holds) log.old bytes.now parts.now.closes out log.new
        (drop parts.now.end bytes.now)) }
    ensures err { IfErr result (λ broken. (out : List ℕ) × Appends (W.holds writer.old) (W.holds writer.new) out
        × RepliesInPart S.answers service.old bytes.now out service.new
        × IsLastNoted S.lines S.refusal_line L.holds (Err (fault_of broken)) log.old bytes.now out log.new) }
    ensures write { result ≡ Err Broken.Write → FailsAtLast W.failed W.fails writer.old writer.new
        × (L.failed log.new ≡ L.failed log.old) }
    ensures log { result ≡ Err Broken.Log → FailsAtLast L.failed L.fails log.old log.new
        × (W.failed writer.new ≡ W.failed writer.old) }
    ensures count { OnOk result ((W.failed writer.new ≡ W.failed writer.old) × (L.failed log.new ≡ L.failed log.old)) }
{
    text.truncate(HEAD_ROOM);
    line.clear();
    let method = parts.method.of(bytes);
    let target = parts.target.of(bytes);
    let body = &bytes[parts.body..parts.end];
    let status = service.call(method, target, body, text, line);
    let start = finish(text, parts.closes, status);
    match send(writer, log, line.as_slice(), &text[start..]) {
        Ok(()) => Ok(()),
        Err(broken) => Err(broken),
    }
}

/// Rejects the rest of a stream: sends the error reply of `status`, which ends the stream. Does not allocate.
fn refuse<S: Service, W: Sink, L: Sink>(
    writer: &mut W,
    log: &mut L,
    status: StatusCode,
    line: &mut Vec<u8>,
) -> Result<(), Broken>
    requires { S.line_room ≤ vec_capacity line.old }
    ensures line_room { S.line_room ≤ vec_capacity line.new }
    ensures ok { OnOk result (Appends (L.holds log.old) (L.holds log.new) (S.refusal_line status)
        × Appends (W.holds writer.old) (W.holds writer.new) (reply_text true status (error_line status))) }
    ensures err { IfErr result (λ broken. IsSentInPart broken L.holds W.holds (S.refusal_line status)
        (reply_text true status (error_line status)) log.old log.new writer.old writer.new) }
    ensures write { result ≡ Err Broken.Write → FailsAtLast W.failed W.fails writer.old writer.new
        × (L.failed log.new ≡ L.failed log.old) }
    ensures log { result ≡ Err Broken.Log → FailsAtLast L.failed L.fails log.old log.new
        × (W.failed writer.new ≡ W.failed writer.old) }
    ensures count { OnOk result ((W.failed writer.new ≡ W.failed writer.old) × (L.failed log.new ≡ L.failed log.old)) }
{
    line.clear();
    S::put_refusal_line(status, line);
    let mut room = [0u8; REFUSAL_ROOM];
    let start = put_refusal(&mut room, status);
    send(writer, log, line.as_slice(), &room[start..])
}

/// Answers the whole requests that `bytes` begin with, and returns the rest, or `None` if the last reply ended the
/// stream.
fn answer_all<S: Service, W: Sink, L: Sink>(
    service: &mut S,
    writer: &mut W,
    log: &mut L,
    bytes: &[u8],
    room: &mut [HeaderSpan],
    text: &mut Vec<u8>,
    line: &mut Vec<u8>,
) -> Result<Option<Unanswered>, Broken>
    requires heads { MAX_HEAD ≤ length room.old }
    requires head { HEAD_ROOM ≤ vec_len text.old }
    requires room { HEAD_ROOM + REPLY_ROOM ≤ vec_capacity text.old }
    requires line_room { S.line_room ≤ vec_capacity line.old }
    ensures head { HEAD_ROOM ≤ vec_len text.new }
    ensures room { HEAD_ROOM + REPLY_ROOM ≤ vec_capacity text.new }
    ensures line_room { S.line_room ≤ vec_capacity line.new }
    ensures open { IfOk result (λ found. IfSome found (λ left. (left.at ≤ length bytes.now)
        × IsUnfinishedBelow (drop left.at bytes.now) left.needed
        × ((out : List ℕ) × (n : ℕ) × Appends (W.holds writer.old) (W.holds writer.new) out
        × Serves S.answers n service.old bytes.now (drop left.at bytes.now) out service.new
        × (m : ℕ) × Serves (notes S.lines L.holds) m log.old bytes.now (drop left.at bytes.now) out log.new))) }
    ensures closed { result ≡ Ok None → (out : List ℕ) × Appends (W.holds writer.old) (W.holds writer.new) out
        × EndsByReply S.answers service.old bytes.now out service.new
        × AreNoted S.lines S.refusal_line L.holds (Ok tt) log.old bytes.now out log.new }
    ensures err { IfErr result (λ broken. (out : List ℕ) × Appends (W.holds writer.old) (W.holds writer.new) out
        × StopsWithinReply S.answers service.old bytes.now out service.new
        × AreNoted S.lines S.refusal_line L.holds (Err (fault_of broken)) log.old bytes.now out log.new) }
    ensures write { result ≡ Err Broken.Write → FailsAtLast W.failed W.fails writer.old writer.new
        × (L.failed log.new ≡ L.failed log.old) }
    ensures log { result ≡ Err Broken.Log → FailsAtLast L.failed L.fails log.old log.new
        × (W.failed writer.new ≡ W.failed writer.old) }
    ensures count { OnOk result ((W.failed writer.new ≡ W.failed writer.old) × (L.failed log.new ≡ L.failed log.old)) }
{
    let mut at = 0;
    'requests: loop {
        let rest = &bytes[at..];
        match cut_request(rest, room) {
            Cut::Whole(parts) => match answer(service, writer, log, rest, &parts, text, line) {
                Ok(()) if parts.closes => return Ok(None),
                Ok(()) => at += parts.end,
                Err(broken) => return Err(broken),
            },
            Cut::Refused(status) => {
                return match refuse::<S, W, L>(writer, log, status, line) {
                    Ok(()) => Ok(None),
                    Err(broken) => Err(broken),
                };
            }
            Cut::Unfinished(needed) => return Ok(Some(Unanswered { at, needed })),
        }
    }
}
