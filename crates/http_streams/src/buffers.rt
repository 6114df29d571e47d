//! Memory for heads, reads and replies, and the buffer of bytes that are read and not yet answered.
ghost use Rattle.std.specs.Prelude.{◌≡◌, ◌≤◌, ◌<◌, ◌++◌, ℕ, List, [], Err, drop, length, IfOk, OnOk};
ghost use Rattle.std.specs.Prelude.{OnErr, IsTrue, IsFalse, vec_len, ◌+◌};
ghost use Rattle.std.specs.Vec.{vec_capacity};
ghost use Rattle.std.specs.Io.KnownBytes.{Consumes, IsAtEnd, Keeps};
ghost use Rattle.http_streams.specs.Devices.{HasFailed};

use crate::devices::Source;
use crate::reply::HEAD_ROOM;
use crate::{MAX_HEAD, MAX_READ, REPLY_ROOM};
use httparse::spans::{EMPTY_HEADER_SPAN, HeaderSpan};
use std::alloc::{AllocError, Global};

/// The reason why no bytes were read.
#[derive(Clone, Copy)]
pub(crate) enum FillFault {
    /// The reader failed.
    Read,
    /// An allocation failed; nothing was read.
    NoMemory,
}

/// Returns memory for the fields of a head: one field for each byte that a head may have. So a head with too many
/// fields is still parsed to its end.
pub fn room_for_heads(alloc: Global) -> Result<Vec<HeaderSpan>, AllocError>
    ensures { IfOk result (λ room. MAX_HEAD ≤ vec_len room) }
{
    vec![in alloc; EMPTY_HEADER_SPAN; MAX_HEAD]
}

/// Returns memory for the bytes of one read.
pub(crate) fn room_for_reads(alloc: Global) -> Result<Vec<u8>, AllocError>
    ensures some { IfOk result (λ room. 0 < vec_len room) }
    ensures most { IfOk result (λ room. vec_len room ≤ MAX_READ) }
{
    vec![in alloc; 0u8; MAX_READ]
}

/// Returns memory for the longest head of a reply and a short body after it.
pub(crate) fn room_for_replies(alloc: Global) -> Result<Vec<u8>, AllocError>
    ensures head { IfOk result (λ text. HEAD_ROOM ≤ vec_len text) }
    ensures body { IfOk result (λ text. HEAD_ROOM + REPLY_ROOM ≤ vec_capacity text) }
{
    let mut text = Vec::with_capacity(alloc, HEAD_ROOM + REPLY_ROOM)?;
    text.resize(HEAD_ROOM, 0)?;
    Ok(text)
}

/// Removes the first `count` bytes.
pub(crate) fn drop_front(bytes: &mut Vec<u8>, count: usize)
    requires { count ≤ vec_len bytes.old }
    ensures items { bytes.new.items ≡ drop count bytes.old.items }
    ensures capacity { vec_capacity bytes.new ≡ vec_capacity bytes.old }
{
    if count == 0 {
        return;
    }
    let left = bytes.len() - count;
    bytes.copy_within(count.., 0);
    bytes.truncate(left);
}

/// Reads once through `chunk`, which must not be empty, appends what was read to `buffer`, and returns whether bytes
/// were read; `false` means the end of the input. Memory for the bytes is allocated before the read, so that no byte is
/// lost.
pub(crate) fn read_more<R: Source>(
    reader: &mut R,
    chunk: &mut [u8],
    buffer: &mut Vec<u8>,
) -> Result<bool, FillFault>
    requires { 0 < length chunk.old }
    ensures ok { IfOk result (λ more. (bytes : List ℕ) × Consumes (R.left reader.old) (R.left reader.new) bytes
        × (buffer.new.items ≡ buffer.old.items ++ bytes) × (IsTrue more → 0 < length bytes)
        × (IsFalse more → (bytes ≡ []) × IsAtEnd (R.left reader.new))
        × (length bytes ≤ length chunk.old) × R.reads reader.old (length chunk.old) bytes reader.new) }
    ensures count { OnOk result (R.failed reader.new ≡ R.failed reader.old) }
    ensures len { length chunk.new ≡ length chunk.old }
    ensures lost { OnErr result (Keeps (R.left reader.old) (R.left reader.new)
        × (buffer.new.items ≡ buffer.old.items)) }
    ensures read { result ≡ Err FillFault.Read
        → R.fails reader.old reader.new × HasFailed (R.failed reader.old) (R.failed reader.new) }
    ensures memory { result ≡ Err FillFault.NoMemory → reader.new ≡ reader.old }
{
    let Ok(()) = buffer.reserve(chunk.len()) else {
        return Err(FillFault::NoMemory);
    };
    match reader.read(chunk) {
        Ok(0) => Ok(false),
        Ok(n) => {
            buffer.extend_from_slice(&chunk[..n]).unwrap();
            Ok(true)
        }
        Err(_) => Err(FillFault::Read),
    }
}
