//! Theorems about the reply at the front of a stream, about a request that is sent, and about the limits.
ghost use Rattle.std.specs.Prelude.{◌≡◌, ℕ, List};
ghost use Rattle.http_streams.specs.FramingLaws.{HasOneReply};
ghost use Rattle.http_streams.specs.RequestRoundTrip.{FitsLimits, IsReadBack};
ghost use Rattle.http_streams.specs.declared.parts.Ask.{Ask};

use crate::{MAX_BODY, MAX_FIELDS, MAX_HEAD, MAX_REPLY};

/// Proves that the reply at the front of a stream does not depend on how the stream is split into reads. No-op.
///
/// A stream has at most one reply at its front. A stream that is rejected, or that is less than a reply, has none; no
/// stream is both rejected and less than a reply.
pub fn one_reply()
    ensures { (stream : List ℕ) → HasOneReply stream }
{}

/// Proves the round trip of requests, for an `Ask` that is within the limits and, if it is a PUT or a POST, has a body.
/// In the text of the `Ask`, `cut_request` finds one request with exactly the method, target, host and body of the
/// `Ask`, and nothing left over. A proper prefix of the text is unfinished. No-op.
pub fn requests_read_back()
    ensures { (ask : Ask) → FitsLimits ask → IsReadBack ask }
{}

/// Proves the limits of docs/formats.md. A head has at most 16,384 bytes with its empty line, and 64 fields. The body
/// of a request has at most 8,388,608 bytes, that of a fetched reply 67,108,864. No-op.
pub fn limits_are_as_stated()
    ensures head { MAX_HEAD ≡ 16_384 }
    ensures fields { MAX_FIELDS ≡ 64 }
    ensures body { MAX_BODY ≡ 8_388_608 }
    ensures reply { MAX_REPLY ≡ 67_108_864 }
{}
