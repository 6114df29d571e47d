//! Reads the fields of a head: a value by its name, the announced length, and whether a field asks to close the
//! connection.
ghost use Rattle.std.specs.Prelude.{◌≡◌, ◌<◌, ◌^◌, length, map, All};
ghost use Rattle.std.specs.Char.{to_ascii_lowercase};
ghost use Rattle.std.specs.List.{list_any};
ghost use Rattle.httparse.specs.Grammar.{skip_ows};
ghost use Rattle.httparse.specs.Spans.{IsHeaderWithin, header_bytes};
ghost use Rattle.http_streams.specs.Fields.{announced, is_close, is_close_part, is_named, lists_close, values_named};
ghost use Rattle.http_streams.specs.inner.FieldValue.{IsFieldValue, skip_ows_back};

use httparse::spans::HeaderSpan;

/// The value of a field that is expected once.
#[derive(Clone, Copy)]
pub(crate) enum FieldValue<'b> {
    /// No field has the name.
    Absent,
    /// One field has the name; this is its value.
    Once(&'b [u8]),
    /// Several fields have the name.
    Many,
}

/// The length that the value of a Content-Length announces.
#[derive(Clone, Copy)]
pub enum Announced {
    /// This length, which is within the limit.
    Size(usize),
    /// A length over the limit.
    TooLong,
    /// No valid length: the value is not decimal digits; or a reply has Transfer-Encoding, or does not have exactly one
    /// Content-Length.
    NoNumber,
}

/// Returns whether the field `header` has this name. `name` must be in lower case.
pub(crate) fn has_name(buf: &[u8], header: &HeaderSpan, name: &[u8]) -> bool
    requires within { IsHeaderWithin (length buf.now) header.now }
    requires lower { map to_ascii_lowercase name.now ≡ name.now }
    ensures { result ≡ is_named name.now (header_bytes buf.now header.now) }
{
    header.name.of(buf).eq_ignore_ascii_case(name)
}

/// Returns the value of the field with this name, if there is exactly one. `name` must be in lower case.
pub(crate) fn values_of<'b>(buf: &'b [u8], headers: &[HeaderSpan], name: &[u8]) -> FieldValue<'b>
    requires within { All (IsHeaderWithin (length buf.now)) headers.now }
    requires lower { map to_ascii_lowercase name.now ≡ name.now }
    ensures { IsFieldValue result (values_named name.now (map (header_bytes buf.now) headers.now)) }
{
    let mut found = FieldValue::Absent;
    for header in headers {
        if has_name(buf, header, name) {
            found = match found {
                FieldValue::Absent => FieldValue::Once(header.value.of(buf)),
                _ => FieldValue::Many,
            };
        }
    }
    found
}

/// Returns whether any of the fields `headers` has this name. `name` must be in lower case.
pub(crate) fn has_header(buf: &[u8], headers: &[HeaderSpan], name: &[u8]) -> bool
    requires within { All (IsHeaderWithin (length buf.now)) headers.now }
    requires lower { map to_ascii_lowercase name.now ≡ name.now }
    ensures { result ≡ list_any (is_named name.now) (map (header_bytes buf.now) headers.now) }
{
    for header in headers {
        if has_name(buf, header, name) {
            return true;
        }
    }
    false
}

/// Parses the text as a decimal number of at most `most`. `most` must be below 2^32, so that a number of at most `most`
/// with one more digit does not overflow.
pub(crate) fn length_of(text: &[u8], most: usize) -> Announced
    requires { most < 2 ^ 32 }
    ensures { result ≡ announced most text.now }
{
    if text.is_empty() {
        return Announced::NoNumber;
    }
    let mut n: usize = 0;
    for b in text {
        if !b.is_ascii_digit() {
            return Announced::NoNumber;
        }
        if n <= most {
            n = n * 10 + (*b - b'0') as usize;
        }
    }
    if n <= most {
        Announced::Size(n)
    } else {
        Announced::TooLong
    }
}

/// Returns the text without the whitespace (spaces and tabs) at its front.
fn skip_front(text: &[u8]) -> &[u8]
    ensures { result.now ≡ skip_ows text.now }
{
    let mut rest = text;
    while let [b' ' | b'\t', after @ ..] = rest {
        rest = after;
    }
    rest
}

/// Returns the text without the whitespace (spaces and tabs) at its end.
fn skip_back(text: &[u8]) -> &[u8]
    ensures { result.now ≡ skip_ows_back text.now }
{
    let mut rest = text;
    while let [before @ .., b' ' | b'\t'] = rest {
        rest = before;
    }
    rest
}

/// Returns whether the text is `close` in any case, apart from whitespace at its ends.
#[tactic(auto, unfolding(httparse::specs::Grammar::trim_ows))]
fn is_close_part(text: &[u8]) -> bool
    ensures { result ≡ is_close_part text.now }
{
    skip_back(skip_front(text)).eq_ignore_ascii_case(b"close")
}

/// Returns whether any of the comma-separated parts of `value` is `close`.
fn lists_close(value: &[u8]) -> bool
    ensures { result ≡ lists_close value.now }
{
    let mut start = 0;
    for i in 0..value.len() {
        if value[i] == b',' {
            if is_close_part(&value[start..i]) {
                return true;
            }
            start = i + 1;
        }
    }
    is_close_part(&value[start..])
}

/// Returns whether the field `header` asks to close the connection.
pub(crate) fn asks_to_close(buf: &[u8], header: &HeaderSpan) -> bool
    requires { IsHeaderWithin (length buf.now) header.now }
    ensures { result ≡ is_close (header_bytes buf.now header.now) }
{
    has_name(buf, header, b"connection") && lists_close(header.value.of(buf))
}
