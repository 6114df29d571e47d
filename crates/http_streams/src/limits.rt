//! The limits of a head.
ghost use Rattle.std.specs.Prelude.{◌≡◌, ◌≤◌, ◌<◌, true, false, take};

use crate::{MAX_FIELDS, MAX_HEAD};

/// Returns the first `MAX_HEAD` bytes of `buf`, or all if there are fewer.
pub(crate) fn first_bytes(buf: &[u8]) -> &[u8]
    ensures { result.now ≡ take MAX_HEAD buf.now }
{
    if buf.len() > MAX_HEAD {
        &buf[..MAX_HEAD]
    } else {
        buf
    }
}

/// Returns whether a head has more fields than allowed.
pub(crate) fn has_too_many(fields: usize) -> bool
    ensures over { result ≡ true → MAX_FIELDS < fields }
    ensures fits { result ≡ false → fields ≤ MAX_FIELDS }
{
    fields > MAX_FIELDS
}

/// Returns whether the `left` bytes after a head are too few for a body of `size` bytes.
pub(crate) fn is_cut_off(left: usize, size: usize) -> bool
    ensures cut { result ≡ true → left < size }
    ensures whole { result ≡ false → size ≤ left }
{
    left < size
}
