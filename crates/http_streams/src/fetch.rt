//! Sends one request and reads its reply.
ghost use Rattle.std.specs.Prelude.{◌≡◌, ◌≢◌, ◌≤◌, ◌<◌, ℕ, List, [], ◌++◌, Err, IfOk, OnOk, OnErr, length};
ghost use Rattle.std.specs.Prelude.{slice_range, vec_len};
ghost use Rattle.std.specs.Io.KnownBytes.{Appends, Consumes, IsAtEnd};
ghost use Rattle.http_streams.specs.Devices.{FailsAtLast};
ghost use Rattle.http_streams.specs.Reply.{IsBadReply, IsReplyAt, IsUnfinishedReply, ReadsReply};
ghost use Rattle.http_streams.specs.RequestText.{request_text};
ghost use Rattle.http_streams.specs.Reads.{EndsByOneRead};

use crate::buffers::{FillFault, drop_front, read_more, room_for_heads, room_for_reads};
use crate::devices::{Sink, Source, write_all};
use crate::parts::Ask;
use crate::reply_cut::{ReplyCut, ReplyParts, cut_reply};
use crate::request::request_text;
use crate::{MAX_HEAD, MAX_READ};
use httparse::spans::HeaderSpan;
use std::alloc::{AllocError, Global};
use thiserror::Error;

/// The reason why there is no reply.
#[derive(Clone, Copy, PartialEq, Eq, Debug, Error)]
pub enum FetchFault {
    /// The reader failed.
    #[error("network 70: reading failed")]
    Read,
    /// The writer failed.
    #[error("network 71: writing failed")]
    Write,
    /// The received bytes cannot begin a reply that has a valid length and is within the limits.
    #[error("network 72: no HTTP reply of one length within the limits")]
    BadReply,
    /// The input ended before the reply did.
    #[error("network 73: connection closed before the end of the reply")]
    Ended,
    /// An allocation failed.
    #[error("network 1: out of memory")]
    NoMemory,
}

/// Writes one request, and reads the reply to it: its status and its body. Bytes after the reply are not checked.
///
/// If `ask` is within the limits of `cut_request`, and is not a PUT or a POST without a body, the written bytes parse
/// as exactly the request `ask` ([`requests_read_back`](crate::framing_laws::requests_read_back)).
///
/// # Errors
///
/// - [`FetchFault::Write`] (71): the writer failed; nothing was read.
/// - [`FetchFault::Read`] (70): the reader failed before a reply was complete.
/// - [`FetchFault::Ended`] (73): the input ended before a reply was complete.
/// - [`FetchFault::BadReply`] (72): the bytes cannot begin a reply that has a valid length and is within the limits.
/// - [`FetchFault::NoMemory`] (1): an allocation failed, at any point.
pub fn fetch<R: Source, W: Sink>(
    alloc: Global,
    reader: &mut R,
    writer: &mut W,
    ask: &Ask<'_>,
) -> Result<(u16, Vec<u8>), FetchFault>
    // The request was written, and the bytes read begin with this reply. No read followed the one that completed the
    // reply.
    ensures ok { IfOk result (λ reply. (bytes : List ℕ) × (front : List ℕ) × (rest : List ℕ)
        × Consumes (R.left reader.old) (R.left reader.new) bytes
        × Appends (W.holds writer.old) (W.holds writer.new) (request_text ask.now)
        × ReadsReply bytes reply.0 reply.1.items rest
        × IsUnfinishedReply front × EndsByOneRead R.left R.reads reader.old reader.new bytes front) }

    // The request was written, and the bytes read cannot begin a reply that has a valid length and is within the
    // limits. The bytes before the last read were less than a reply.
    ensures bad { result ≡ Err FetchFault.BadReply → (bytes : List ℕ) × (front : List ℕ)
        × Consumes (R.left reader.old) (R.left reader.new) bytes
        × Appends (W.holds writer.old) (W.holds writer.new) (request_text ask.now)
        × IsBadReply bytes
        × IsUnfinishedReply front × EndsByOneRead R.left R.reads reader.old reader.new bytes front }

    // The request was written, and the input ended, as the last read reported, with less than a reply.
    ensures ended { result ≡ Err FetchFault.Ended → (bytes : List ℕ)
        × Consumes (R.left reader.old) (R.left reader.new) bytes
        × Appends (W.holds writer.old) (W.holds writer.new) (request_text ask.now)
        × IsUnfinishedReply bytes × IsAtEnd (R.left reader.new)
        × EndsByOneRead R.left R.reads reader.old reader.new bytes bytes }

    // The request was written, less than a reply was read, and the last read failed.
    ensures read { result ≡ Err FetchFault.Read → (bytes : List ℕ)
        × Consumes (R.left reader.old) (R.left reader.new) bytes
        × Appends (W.holds writer.old) (W.holds writer.new) (request_text ask.now)
        × IsUnfinishedReply bytes × FailsAtLast R.failed R.fails reader.old reader.new }

    // The last write failed, and nothing was read.
    ensures write { result ≡ Err FetchFault.Write → (reader.new ≡ reader.old)
        × FailsAtLast W.failed W.fails writer.old writer.new }

    // After any error a prefix of the request was sent, possibly empty or whole.
    ensures err { OnErr result ((bytes : List ℕ) × (front : List ℕ) × (back : List ℕ)
        × Consumes (R.left reader.old) (R.left reader.new) bytes
        × (request_text ask.now ≡ front ++ back) × Appends (W.holds writer.old) (W.holds writer.new) front) }

    // Each failure of a device is reported.
    ensures reads { result ≢ Err FetchFault.Read → R.failed reader.new ≡ R.failed reader.old }
    ensures writes { result ≢ Err FetchFault.Write → W.failed writer.new ≡ W.failed writer.old }
{
    match send(alloc, writer, ask) {
        Ok(()) => {}
        Err(SendFault::Write) => return Err(FetchFault::Write),
        Err(SendFault::NoMemory) => return Err(FetchFault::NoMemory),
    }
    let Ok((mut room, mut chunk)) = rooms(alloc) else {
        return Err(FetchFault::NoMemory);
    };
    let mut buffer = Vec::new(alloc);
    match read_whole(reader, &mut room, &mut chunk, &mut buffer) {
        Ok(parts) => {
            keep_body(&mut buffer, &parts);
            Ok((parts.code, buffer))
        }
        Err(fault) => Err(fault),
    }
}

/// The reason why a request was not sent.
#[derive(Clone, Copy)]
enum SendFault {
    /// The writer failed.
    Write,
    /// An allocation failed; nothing was written.
    NoMemory,
}

/// Writes the request, by one write if the writer accepts it whole.
fn send<W: Sink>(alloc: Global, writer: &mut W, ask: &Ask<'_>) -> Result<(), SendFault>
    ensures ok { OnOk result (Appends (W.holds writer.old) (W.holds writer.new) (request_text ask.now)) }
    ensures err { OnErr result ((front : List ℕ) × (back : List ℕ) × (request_text ask.now ≡ front ++ back)
        × Appends (W.holds writer.old) (W.holds writer.new) front) }
    ensures write { result ≡ Err SendFault.Write → FailsAtLast W.failed W.fails writer.old writer.new }
    ensures count { result ≢ Err SendFault.Write → W.failed writer.new ≡ W.failed writer.old }
{
    let Ok(text) = request_text(alloc, ask) else {
        return Err(SendFault::NoMemory);
    };
    match write_all(writer, &text) {
        Ok(()) => Ok(()),
        Err(_) => Err(SendFault::Write),
    }
}

/// Removes all bytes except the reply's body.
fn keep_body(bytes: &mut Vec<u8>, parts: &ReplyParts)
    requires { (parts.now.body ≤ parts.now.end) × (parts.now.end ≤ length bytes.old.items) }
    ensures { bytes.new.items ≡ slice_range bytes.old.items parts.now.body parts.now.end }
{
    bytes.truncate(parts.end);
    drop_front(bytes, parts.body);
}

/// Returns memory for the parts of a head, and for the bytes of one read.
fn rooms(alloc: Global) -> Result<(Vec<HeaderSpan>, Vec<u8>), AllocError>
    ensures heads { IfOk result (λ rooms. MAX_HEAD ≤ vec_len rooms.0) }
    ensures some { IfOk result (λ rooms. 0 < vec_len rooms.1) }
    ensures most { IfOk result (λ rooms. vec_len rooms.1 ≤ MAX_READ) }
{
    let heads = room_for_heads(alloc)?;
    let reads = room_for_reads(alloc)?;
    Ok((heads, reads))
}

/// Reads until the bytes are a whole reply, or cannot become one. `room` is memory for the fields of a head, `chunk`
/// for one read; `buffer` gets all bytes that are read.
fn read_whole<R: Source>(
    reader: &mut R,
    room: &mut [HeaderSpan],
    chunk: &mut [u8],
    buffer: &mut Vec<u8>,
) -> Result<ReplyParts, FetchFault>
    requires heads { MAX_HEAD ≤ length room.old }
    requires some { 0 < length chunk.old }
    requires most { length chunk.old ≤ MAX_READ }
    requires empty { buffer.old.items ≡ [] }
    ensures bytes { Consumes (R.left reader.old) (R.left reader.new) buffer.new.items }
    ensures ok { IfOk result (λ parts. (front : List ℕ) × IsReplyAt buffer.new.items parts
        × IsUnfinishedReply front × EndsByOneRead R.left R.reads reader.old reader.new buffer.new.items front) }
    ensures bad { result ≡ Err FetchFault.BadReply → (front : List ℕ) × IsBadReply buffer.new.items
        × IsUnfinishedReply front × EndsByOneRead R.left R.reads reader.old reader.new buffer.new.items front }
    ensures ended { result ≡ Err FetchFault.Ended → IsUnfinishedReply buffer.new.items × IsAtEnd (R.left reader.new)
        × EndsByOneRead R.left R.reads reader.old reader.new buffer.new.items buffer.new.items }
    ensures read { result ≡ Err FetchFault.Read → IsUnfinishedReply buffer.new.items
        × FailsAtLast R.failed R.fails reader.old reader.new }
    ensures count { result ≢ Err FetchFault.Read → R.failed reader.new ≡ R.failed reader.old }
    ensures write { result ≢ Err FetchFault.Write }
{
    let mut needed = 0;
    'turns: loop {
        match read_more(reader, chunk, buffer) {
            Ok(true) => {}
            Ok(false) => return Err(FetchFault::Ended),
            Err(FillFault::Read) => return Err(FetchFault::Read),
            Err(FillFault::NoMemory) => return Err(FetchFault::NoMemory),
        }
        if buffer.len() < needed {
            // a whole head determines where the reply ends, so it is not parsed again with each piece of the body
            continue;
        }
        match cut_reply(buffer, room) {
            ReplyCut::Whole(parts) => return Ok(parts),
            ReplyCut::Bad => return Err(FetchFault::BadReply),
            ReplyCut::Unfinished(least) => needed = least,
        }
    }
}
