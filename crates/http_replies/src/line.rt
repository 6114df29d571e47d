//! Appends the lines that need no allocation, to a text with enough spare capacity.
ghost use Rattle.std.specs.Prelude.{◌≡◌, ◌≤◌, ◌+◌, ◌++◌, length, vec_len, decimal};
ghost use Rattle.std.specs.Vec.{vec_capacity};
ghost use Rattle.answer_lines.specs.Refusals.{number_in};
ghost use Rattle.http_replies.specs.Lines.{fault_line, put_line, stamp_line, taken_line};
ghost use Rattle.site.specs.stamped_store.SiteNames.{IsSiteName};
ghost use Rattle.http_replies.specs.inner.Pieces.{boolean_word, number_or_null, site_end};

use crate::LINE_ROOM;
use answer_lines::Place;
use itoa::Buffer;
use site::{SiteName, Stamp};

/// Appends a piece.
fn append(text: &mut Vec<u8>, piece: &[u8])
    requires room { vec_len text.old + length piece.now ≤ vec_capacity text.old }
    ensures items { text.new.items ≡ text.old.items ++ piece.now }
    ensures len { vec_len text.new ≡ vec_len text.old + length piece.now }
    ensures kept { vec_capacity text.old ≤ vec_capacity text.new }
{
    text.extend_from_slice(piece).unwrap();
}

/// Appends a number's digits, at most 20.
fn append_number(text: &mut Vec<u8>, number: u64)
    requires room { vec_len text.old + 20 ≤ vec_capacity text.old }
    ensures items { text.new.items ≡ text.old.items ++ decimal number }
    ensures len { vec_len text.new ≤ vec_len text.old + 20 }
    ensures kept { vec_capacity text.old ≤ vec_capacity text.new }
{
    let mut digits = Buffer::new();
    append(text, digits.format(number).as_bytes());
}

/// Appends `true` or `false`.
fn append_boolean(text: &mut Vec<u8>, value: bool)
    requires room { vec_len text.old + 5 ≤ vec_capacity text.old }
    ensures items { text.new.items ≡ text.old.items ++ boolean_word value }
    ensures len { vec_len text.new ≤ vec_len text.old + 5 }
    ensures kept { vec_capacity text.old ≤ vec_capacity text.new }
{
    if value {
        append(text, b"true");
    } else {
        append(text, b"false");
    }
}

/// Appends a number's digits, or `null` for `None`.
fn append_or_null(text: &mut Vec<u8>, number: Option<u64>)
    requires room { vec_len text.old + 20 ≤ vec_capacity text.old }
    ensures items { text.new.items ≡ text.old.items ++ number_or_null number }
    ensures len { vec_len text.new ≤ vec_len text.old + 20 }
    ensures kept { vec_capacity text.old ≤ vec_capacity text.new }
{
    match number {
        Some(number) => append_number(text, number),
        None => append(text, b"null"),
    }
}

/// Appends the end of the line of a stamp: 11 bytes, and the site's name. A site name has at most 32 bytes, and needs
/// no escape.
fn append_site(text: &mut Vec<u8>, site: &SiteName)
    requires room { vec_len text.old + 43 ≤ vec_capacity text.old }
    ensures items { text.new.items ≡ text.old.items ++ site_end site.now }
    ensures named { IsSiteName site.now }
    ensures kept { vec_capacity text.old ≤ vec_capacity text.new }
{
    append(text, b",\"site\":\"");
    append(text, site.as_bytes());
    append(text, b"\"}");
}

/// Appends the line of a stamp.
pub(crate) fn append_stamp(text: &mut Vec<u8>, stamp: Stamp)
    requires room { vec_len text.old + LINE_ROOM ≤ vec_capacity text.old }
    ensures items { text.new.items ≡ text.old.items ++ stamp_line stamp }
    ensures kept { vec_capacity text.old ≤ vec_capacity text.new }
{
    append(text, b"{\"count\":");
    append_number(text, stamp.count);
    append_site(text, &stamp.site);
}

/// Appends the line of a put of a policy: the stamp, and whether the policy is impossible.
pub(crate) fn append_put(text: &mut Vec<u8>, stamp: Stamp, impossible: bool)
    requires room { vec_len text.old + LINE_ROOM ≤ vec_capacity text.old }
    ensures items { text.new.items ≡ text.old.items ++ put_line stamp impossible }
    ensures kept { vec_capacity text.old ≤ vec_capacity text.new }
{
    append(text, b"{\"count\":");
    append_number(text, stamp.count);
    append(text, b",\"impossible\":");
    append_boolean(text, impossible);
    append_site(text, &stamp.site);
}

/// Appends the line with the number of applied updates.
pub(crate) fn append_taken(text: &mut Vec<u8>, count: usize)
    requires room { vec_len text.old + LINE_ROOM ≤ vec_capacity text.old }
    ensures items { text.new.items ≡ text.old.items ++ taken_line count }
    ensures kept { vec_capacity text.old ≤ vec_capacity text.new }
{
    append(text, b"{\"taken\":");
    append_number(text, count as u64);
    append(text, b"}");
}

/// Returns the number of a place as a number of 64 bits.
fn place_number(place: Option<Place>) -> Option<u64>
    ensures { result ≡ number_in place }
{
    match place {
        Some(place) => Some(place.number() as u64),
        None => None,
    }
}

/// Returns the code of an inner error as a number of 64 bits.
fn within_number(within: Option<u8>) -> Option<u64>
    ensures { result ≡ within }
{
    match within {
        Some(code) => Some(u64::from(code)),
        None => None,
    }
}

/// Appends the line of an error.
pub(crate) fn append_fault(text: &mut Vec<u8>, code: u16, place: Option<Place>, within: Option<u8>)
    requires room { vec_len text.old + LINE_ROOM ≤ vec_capacity text.old }
    ensures items { text.new.items ≡ text.old.items ++ fault_line code place within }
    ensures kept { vec_capacity text.old ≤ vec_capacity text.new }
{
    append(text, b"{\"error\":{\"code\":");
    append_number(text, u64::from(code));
    append(text, b",\"place\":");
    append_or_null(text, place_number(place));
    append(text, b",\"within\":");
    append_or_null(text, within_number(within));
    append(text, b"}}");
}
