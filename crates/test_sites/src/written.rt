//! Strings as a case writes them.
use crate::line::Line;
use plain::{NoMemory, Text};
use std::alloc::Global;

/// Returns the first word of a string, and the string after the blank that ends it.
pub(crate) fn first_word(text: &str) -> (&str, &str) {
    text.split_once(' ').unwrap_or((text, ""))
}

/// Appends `part`, with `number` in place of each `#` and the next number in place of each `+`.
fn push_numbered(bytes: &mut Line, part: &str, number: usize) {
    for byte in part.as_bytes() {
        match *byte {
            b'#' => bytes.push_number(number as u64),
            b'+' => bytes.push_number(number.saturating_add(1) as u64),
            other => bytes.push(&[other]),
        }
    }
}

/// Appends a part for each number below a count.
fn push_all_numbered(bytes: &mut Line, part: &str, count: usize) {
    for number in 0..count {
        push_numbered(bytes, part, number);
    }
}

/// Appends a part `count` times.
fn push_repeated(bytes: &mut Line, part: &str, count: usize) {
    for _ in 0..count {
        bytes.push(part.as_bytes());
    }
}

/// Appends bytes that are written in hexadecimal digits and separated by blanks.
fn push_hexadecimal(bytes: &mut Line, text: &str) {
    for digits in text.split(' ') {
        bytes.push(&[u8::from_str_radix(digits, 16).unwrap_or(0)]);
    }
}

/// Returns the number that a string spells in decimal digits, if it spells one.
pub(crate) fn number_of(text: &str) -> Option<usize> {
    text.parse().ok()
}

/// Appends the bytes that a string in brackets denotes.
fn push_bracketed(bytes: &mut Line, text: &str) {
    if let Some((count, part)) = text.split_once('№') {
        push_all_numbered(bytes, part, number_of(count).unwrap_or(0));
    } else if let Some((count, part)) = text.split_once('×') {
        push_repeated(bytes, part, number_of(count).unwrap_or(0));
    } else {
        push_hexadecimal(bytes, text);
    }
}

/// Appends the bytes that the string after an opening bracket denotes.
fn push_piece(bytes: &mut Line, piece: &str) {
    match piece.split_once('⟧') {
        Some((bracketed, behind)) => {
            push_bracketed(bytes, bracketed);
            bytes.push(behind.as_bytes());
        }
        None => bytes.push(piece.as_bytes()),
    }
}

/// Returns the bytes that a string with brackets denotes.
pub(crate) fn expanded(alloc: Global, text: &str) -> Result<Vec<u8>, NoMemory> {
    let mut bytes = Line::new(alloc);
    let (front, rest) = text.split_once('⟦').unwrap_or((text, ""));
    bytes.push(front.as_bytes());
    for piece in rest.split('⟦') {
        push_piece(&mut bytes, piece);
    }
    bytes.ended()
}

/// Returns bytes in UTF-8 as a string, and `no UTF-8` for other bytes.
pub(crate) fn text_in(bytes: &[u8]) -> &str {
    match std::str::from_utf8(bytes) {
        Ok(text) => text,
        Err(_) => "no UTF-8",
    }
}

/// Returns the string that a string with brackets denotes.
pub(crate) fn expanded_text(alloc: Global, text: &str) -> Result<Text, NoMemory> {
    let bytes = expanded(alloc, text)?;
    Text::from_str(alloc, text_in(&bytes))
}

/// Appends the byte that `byte` denotes, where `is_escaped` is whether the byte before it escapes it. If `byte` itself
/// escapes the next byte, appends nothing and returns true.
fn push_unescaped_byte(bytes: &mut Line, byte: u8, is_escaped: bool) -> bool {
    match (is_escaped, byte) {
        (false, b'\\') => return true,
        (true, b'r') => bytes.push(b"\r"),
        (true, b'n') => bytes.push(b"\n"),
        (_, other) => bytes.push(&[other]),
    }
    false
}

/// Appends the bytes that a string of a stream denotes.
pub(crate) fn push_unescaped(bytes: &mut Line, text: &str) {
    let mut is_escaped = false;
    for byte in text.as_bytes() {
        is_escaped = push_unescaped_byte(bytes, *byte, is_escaped);
    }
}

/// Appends bytes of a stream, with each carriage return and line feed as its escape.
pub(crate) fn push_escaped(line: &mut Line, bytes: &[u8]) {
    for byte in bytes {
        match *byte {
            b'\r' => line.push(b"\\r"),
            b'\n' => line.push(b"\\n"),
            other => line.push(&[other]),
        }
    }
}
