//! Writes replies as bytes, from the end to the front of a given buffer. Does not allocate.
ghost use Rattle.std.specs.Prelude.{◌≡◌, ◌≤◌, ◌+◌, ◌++◌, true, length, drop, decimal};
ghost use Rattle.http_streams.specs.ReplyText.{ending, error_line, length_lines, phrase, reply_text, status_line};

use http::StatusCode;

/// The number of bytes that suffices for the head of any reply: 56 for the status line, 80 for Content-Type and
/// Content-Length, 24 for the end.
pub const HEAD_ROOM: usize = 160;

/// The number of bytes that suffices for a whole reply to a rejected head: `HEAD_ROOM`, and 96 for the error line.
pub const REFUSAL_ROOM: usize = 256;

/// Writes the piece right before `end`; returns where it begins.
fn put_piece(room: &mut [u8], end: usize, piece: &[u8]) -> usize
    requires fits { length piece.now ≤ end }
    requires inside { end ≤ length room.old }
    ensures start { result + length piece.now ≡ end }
    ensures text { drop result room.new ≡ piece.now ++ drop end room.old }
{
    let start = end - piece.len();
    room[start..end].copy_from_slice(piece);
    start
}

/// Writes the number's digits, at most 20, right before `end`; returns where they begin.
fn put_number(room: &mut [u8], end: usize, number: usize) -> usize
    requires fits { 20 ≤ end }
    requires inside { end ≤ length room.old }
    ensures start { result + length (decimal number) ≡ end }
    ensures least { end ≤ result + 20 }
    ensures text { drop result room.new ≡ decimal number ++ drop end room.old }
{
    itoa::write_digits(number as u64, room, end)
}

/// Returns the end of the head of a reply, with the field `Connection: close` if the reply is the `last` of its stream.
#[tactic(auto, unfolding(crate::specs::ReplyText::ending))]
fn ending(last: bool) -> &'static str
    ensures text { result.now ≡ ending last }
    ensures short { length result.now ≤ 24 }
{
    if last {
        "\r\nConnection: close\r\n\r\n"
    } else {
        "\r\n\r\n"
    }
}

/// Writes the fields Content-Type and Content-Length right before `end`; returns where they begin.
#[tactic(auto, unfolding(crate::specs::ReplyText::length_lines))]
fn put_length(room: &mut [u8], end: usize, size: usize) -> usize
    requires fits { 80 ≤ end }
    requires inside { end ≤ length room.old }
    ensures start { end ≤ result + 80 }
    ensures order { result ≤ end }
    ensures text { drop result room.new ≡ length_lines size ++ drop end room.old }
{
    let at = put_number(room, end, size);
    put_piece(
        room,
        at,
        b"\r\nContent-Type: application/json\r\nContent-Length: ",
    )
}

/// Returns the reason phrase of a status, empty if it has none.
#[tactic(auto, unfolding(crate::specs::ReplyText::phrase))]
fn phrase(status: StatusCode) -> &'static str
    ensures { result.now ≡ phrase status }
{
    status.canonical_reason().unwrap_or("")
}

/// Writes the status line right before `end`; returns where it begins.
#[tactic(auto, unfolding(crate::specs::ReplyText::status_line))]
fn put_status(room: &mut [u8], end: usize, status: StatusCode) -> usize
    requires fits { 56 ≤ end }
    requires inside { end ≤ length room.old }
    ensures order { result ≤ end }
    ensures text { drop result room.new ≡ status_line status ++ drop end room.old }
{
    let code = status.as_u16();
    let words = put_piece(room, end, phrase(status).as_bytes());
    let blank = put_piece(room, words, b" ");
    let digits = put_number(room, blank, usize::from(code));
    put_piece(room, digits, b"HTTP/1.1 ")
}

/// Writes the head of a reply right before its body, which extends from `body` to the end of `room`; returns where the
/// reply begins. `body` must be at least `HEAD_ROOM`. `last` is whether the reply ends the stream.
#[tactic(auto, unfolding(crate::specs::ReplyText::reply_text))]
pub fn put_head(room: &mut [u8], body: usize, last: bool, status: StatusCode) -> usize
    requires fits { HEAD_ROOM ≤ body }
    requires inside { body ≤ length room.old }
    ensures order { result ≤ body }
    ensures text { drop result room.new ≡ reply_text last status (drop body room.old) }
{
    let size = room.len() - body;
    let end = put_piece(room, body, ending(last).as_bytes());
    let lines = put_length(room, end, size);
    put_status(room, lines, status)
}

/// Writes the line of an error right before `end`; returns where it begins.
#[tactic(auto, unfolding(crate::specs::ReplyText::error_line))]
fn put_error(room: &mut [u8], end: usize, code: u16) -> usize
    requires fits { 96 ≤ end }
    requires inside { end ≤ length room.old }
    ensures start { end ≤ result + 96 }
    ensures order { result ≤ end }
    ensures text { drop result room.new ≡ error_line code ++ drop end room.old }
{
    let nulls = put_piece(room, end, b",\"place\":null,\"within\":null}}");
    let digits = put_number(room, nulls, usize::from(code));
    put_piece(room, digits, b"{\"error\":{\"code\":")
}

/// Writes a whole reply that ends the stream, with the error line of `status`, at the end of `room`; returns where the
/// reply begins. `room` must have `REFUSAL_ROOM` bytes.
pub fn put_refusal(room: &mut [u8], status: StatusCode) -> usize
    requires fits { length room.old ≡ REFUSAL_ROOM }
    ensures order { result ≤ length room.new }
    ensures text { drop result room.new ≡ reply_text true status (error_line status) }
{
    let body = put_error(room, REFUSAL_ROOM, status.as_u16());
    put_head(room, body, true, status)
}
