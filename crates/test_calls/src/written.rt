//! The bytes that the text of a test case denotes, and bytes as a line shows them.
use crate::pieces::{Bytes, Line};
use plain::NoMemory;
use std::alloc::Global;

/// Appends 1,024 letters.
fn push_letters(bytes: &mut Bytes) {
    for _ in 0..32 {
        bytes.push(b"abcdefghijklmnopqrstuvwxyzabcdef");
    }
}

/// Appends the bytes that a letter after a backslash denotes.
fn push_escape(bytes: &mut Bytes, letter: u8) {
    match letter {
        b'r' => bytes.push(b"\r"),
        b'n' => bytes.push(b"\n"),
        b't' => bytes.push(b"\t"),
        b'v' => bytes.push(&[11]),
        b'p' => bytes.push(&[12]),
        b'f' => bytes.push(&[255]),
        b'd' => bytes.push("\u{202e}".as_bytes()),
        b'h' => bytes.push(b"h:1\r\n"),
        b'k' => push_letters(bytes),
        other => bytes.push(&[other]),
    }
}

/// Appends the bytes that a byte denotes, and returns whether it escapes the next one.
fn push_unescaped(bytes: &mut Bytes, byte: u8, is_escaped: bool) -> bool {
    if is_escaped {
        push_escape(bytes, byte);
        return false;
    }
    if byte == b'\\' {
        return true;
    }
    bytes.push(&[byte]);
    false
}

/// Returns the bytes that a text with backslashes denotes.
pub(crate) fn unescaped(alloc: Global, written: &str) -> Result<Vec<u8>, NoMemory> {
    let mut bytes = Bytes::new(alloc);
    let mut is_escaped = false;
    for byte in written.as_bytes() {
        is_escaped = push_unescaped(&mut bytes, *byte, is_escaped);
    }
    bytes.ended()
}

/// Appends a byte as the character with its code; appends a carriage return or a line feed as its escape.
fn push_shown(told: &mut Line, byte: u8) {
    match byte {
        b'\r' => told.push("\\r"),
        b'\n' => told.push("\\n"),
        other => told.push_char(char::from(other)),
    }
}

/// Returns bytes of a stream as a line of text.
pub(crate) fn shown(alloc: Global, bytes: &[u8]) -> Result<String, NoMemory> {
    let mut told = Line::new(alloc);
    for byte in bytes {
        push_shown(&mut told, *byte);
    }
    told.ended()
}

/// Returns bytes as text, or `no UTF-8`.
pub(crate) fn text_of(alloc: Global, bytes: &[u8]) -> Result<String, NoMemory> {
    match std::str::from_utf8(bytes) {
        Ok(text) => String::from_str(alloc, text),
        Err(_) => String::from_str(alloc, "no UTF-8"),
    }
}

/// Returns the outcome of a line that is not a test case.
pub(crate) fn bad_row(alloc: Global) -> Result<String, NoMemory> {
    String::from_str(alloc, "bad row")
}
