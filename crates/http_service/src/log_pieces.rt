//! The functions that write the pieces of a line.
ghost use Rattle.std.specs.Prelude.{◌≡◌, ◌≤◌, ◌<◌, ◌+◌, ◌++◌, ◌∷◌, [], length, vec_len, codes, decimal, Some, IfOk};
ghost use Rattle.std.specs.Prelude.{OnOk, false, option_and_then, option_map};
ghost use Rattle.std.specs.Char.{digit_char};
ghost use Rattle.std.specs.Vec.{vec_capacity};
ghost use Rattle.json.specs.Print.{escape, escape_byte, escape_letter, quoted};
ghost use Rattle.serde_json.specs.View.{view};
ghost use Rattle.serde_json.specs.Find.{as_str, get};
ghost use Rattle.http_service.specs.LogLines.{head_text, inner_text, member_text, members_text};
ghost use Rattle.http_service.specs.LogLines.{name_text, named_text, object_text, string_or_null, text_of, uid_text};

use itoa::Buffer;
use json_words::text_at;
use plain::NoMemory;
use serde_json::Value;
use std::alloc::Global;

/// The number of bytes that are reserved at once for the pieces of a line. Most lines need fewer.
const USUAL_LINE: usize = 256;

/// Appends a piece within the capacity.
pub(crate) fn append(line: &mut Vec<u8>, piece: &[u8])
    requires room { vec_len line.old + length piece.now ≤ vec_capacity line.old }
    ensures items { line.new.items ≡ line.old.items ++ piece.now }
    ensures len { vec_len line.new ≡ vec_len line.old + length piece.now }
    ensures kept { vec_capacity line.old ≤ vec_capacity line.new }
{
    line.extend_from_slice(piece).unwrap();
}

/// Appends a number's digits, at most 20.
pub(crate) fn append_number(line: &mut Vec<u8>, number: u64)
    requires room { vec_len line.old + 20 ≤ vec_capacity line.old }
    ensures items { line.new.items ≡ line.old.items ++ decimal number }
    ensures len { vec_len line.new ≤ vec_len line.old + 20 }
    ensures kept { vec_capacity line.old ≤ vec_capacity line.new }
{
    let mut digits = Buffer::new();
    append(line, digits.format(number).as_bytes());
}

/// Returns the letter of a byte's short escape in a JSON string, or 0 if it has none.
fn escape_letter(byte: u8) -> u8
    ensures { result ≡ escape_letter byte }
{
    match byte {
        b'"' | b'\\' => byte,
        8 => b'b',
        12 => b'f',
        b'\n' => b'n',
        b'\r' => b'r',
        b'\t' => b't',
        _ => 0,
    }
}

/// Returns the hexadecimal digit of a number below 16.
fn hex_digit(digit: u8) -> u8
    requires { digit < 16 }
    ensures { result ≡ digit_char digit }
{
    if digit < 10 {
        b'0' + digit
    } else {
        b'a' - 10 + digit
    }
}

/// Returns whether a byte of a JSON string may have an escape.
fn is_special(byte: u8) -> bool
    ensures { result ≡ false → escape_byte byte ≡ byte ∷ [] }
{
    if byte < 0x20 {
        return true;
    }
    if byte == b'"' {
        return true;
    }
    byte == b'\\'
}

/// Appends a byte of a JSON string by its escape, or the byte itself if it has none.
#[inline(never)]
#[tactic(auto, unfolding(json::specs::Print::escape_byte))]
fn append_special(line: &mut Vec<u8>, byte: u8) -> Result<(), NoMemory>
    ensures { OnOk result (line.new.items ≡ line.old.items ++ escape_byte byte) }
{
    let letter = escape_letter(byte);
    if letter > 0 {
        line.extend_from_slice(&[b'\\', letter])?;
        return Ok(());
    }
    if byte < 0x20 {
        let (high, low) = (hex_digit(byte / 16), hex_digit(byte % 16));
        line.extend_from_slice(&[b'\\', b'u', b'0', b'0', high, low])?;
        return Ok(());
    }
    line.push(byte)?;
    Ok(())
}

/// Appends a byte of a JSON string: its escape or, for most bytes, the byte itself.
fn append_byte(line: &mut Vec<u8>, byte: u8) -> Result<(), NoMemory>
    ensures { OnOk result (line.new.items ≡ line.old.items ++ escape_byte byte) }
{
    if is_special(byte) {
        return append_special(line, byte);
    }
    line.push(byte)?;
    Ok(())
}

/// Appends a text as it is written in a JSON string.
fn append_escaped(line: &mut Vec<u8>, text: &[u8]) -> Result<(), NoMemory>
    ensures { OnOk result (line.new.items ≡ line.old.items ++ escape text.now) }
{
    for &byte in text {
        append_byte(line, byte)?;
    }
    Ok(())
}

/// Returns a line followed by a text as a JSON string. A `json::Writer` for each string would take three times as long.
fn with_string(line: Vec<u8>, text: &str) -> Result<Vec<u8>, NoMemory>
    ensures { IfOk result (λ made. made.items ≡ line.items ++ quoted text.now) }
{
    let mut line = line;
    line.push(b'"')?;
    append_escaped(&mut line, text.as_bytes())?;
    line.push(b'"')?;
    Ok(line)
}

/// Returns a line followed by a text as a JSON string, or by null.
fn with_text(line: Vec<u8>, text: Option<&str>) -> Result<Vec<u8>, NoMemory>
    ensures { IfOk result (λ made. made.items ≡ line.items ++ string_or_null (option_map (λ t. t.now) text.entry)) }
{
    match text {
        Some(text) => with_string(line, text),
        None => with_piece(line, b"null"),
    }
}

/// Returns a line followed by a piece.
fn with_piece(line: Vec<u8>, piece: &[u8]) -> Result<Vec<u8>, NoMemory>
    ensures { IfOk result (λ made. made.items ≡ line.items ++ piece.now) }
{
    let mut line = line;
    line.extend_from_slice(piece)?;
    Ok(line)
}

/// Returns bytes as text, if they are UTF-8.
fn text_of(bytes: &[u8]) -> Option<&str>
    ensures { option_map (λ t. t.now) result ≡ text_of bytes.now }
{
    match str::from_utf8(bytes) {
        Ok(text) => Some(text),
        Err(_) => None,
    }
}

/// Returns the beginning of the line of a request: its method and its target, each null if it is not UTF-8.
pub(crate) fn head_of(alloc: Global, method: &[u8], target: &[u8]) -> Result<Vec<u8>, NoMemory>
    ensures { IfOk result (λ made. made.items ≡ head_text (text_of method.now) (text_of target.now)) }
{
    let line = Vec::with_capacity(alloc, USUAL_LINE)?;
    let line = with_piece(line, b"{\"method\":")?;
    let line = with_text(line, text_of(method))?;
    let line = with_piece(line, b",\"target\":")?;
    with_text(line, text_of(target))
}

/// Returns a line followed by a uid of this type and this id.
fn with_uid(line: Vec<u8>, kind: &str, id: &str) -> Result<Vec<u8>, NoMemory>
    ensures { IfOk result (λ made. made.items ≡ line.items ++ uid_text (Some kind.now) (Some id.now)) }
{
    let line = with_piece(line, b"{\"id\":")?;
    let line = with_string(line, id)?;
    let line = with_piece(line, b",\"type\":")?;
    let line = with_string(line, kind)?;
    with_piece(line, b"}")
}

/// Returns a line followed by the uid in an object, or by null if the object does not have both type and id as
/// strings.
fn with_object(line: Vec<u8>, value: &Value) -> Result<Vec<u8>, NoMemory>
    ensures { IfOk result (λ made. made.items ≡ line.items ++ object_text (view value.now)) }
{
    match text_at(value, "type") {
        Some(kind) => match text_at(value, "id") {
            Some(id) => with_uid(line, kind, id),
            None => with_piece(line, b"null"),
        },
        None => with_piece(line, b"null"),
    }
}

/// Returns a line followed by the uid in the member `__entity` of an object or, without that member, in the object
/// itself.
fn with_inner(line: Vec<u8>, value: &Value) -> Result<Vec<u8>, NoMemory>
    ensures { IfOk result (λ made.
        made.items ≡ line.items ++ inner_text (view value.now) (get (codes "__entity") (view value.now))) }
{
    match value.get("__entity") {
        Some(inner) => with_object(line, inner),
        None => with_object(line, value),
    }
}

/// Returns a line followed by the name of an entity in a request: a string as it was sent, or the uid in an object.
fn with_name(line: Vec<u8>, value: &Value) -> Result<Vec<u8>, NoMemory>
    ensures { IfOk result (λ made. made.items ≡ line.items ++ name_text (view value.now) (as_str (view value.now))) }
{
    match value.as_str() {
        Some(text) => with_string(line, text),
        None => with_inner(line, value),
    }
}

/// Returns a line followed by the name of an entity, or by null.
fn with_named(line: Vec<u8>, found: Option<&Value>) -> Result<Vec<u8>, NoMemory>
    ensures { IfOk result (λ made. made.items ≡ line.items ++ named_text (option_map (λ v. view v.now) found.entry)) }
{
    match found {
        Some(value) => with_name(line, value),
        None => with_piece(line, b"null"),
    }
}

/// Returns the value at a key of a parsed body, if there is one.
fn member<'v>(value: &'v Option<Value>, key: &str) -> Option<&'v Value>
    ensures { option_map (λ v. view v.now) result ≡ option_and_then (get key.now) (option_map view value.now) }
{
    match value {
        Some(value) => value.get(key),
        None => None,
    }
}

/// Returns a line followed by a label and the name of the entity at a key of a parsed body.
#[tactic(auto, unfolding(crate::specs::LogLines::member_text))]
fn with_member(
    line: Vec<u8>,
    value: &Option<Value>,
    label: &[u8],
    key: &str,
) -> Result<Vec<u8>, NoMemory>
    ensures { IfOk result (λ made.
        made.items ≡ line.items ++ member_text label.now key.now (option_map view value.now)) }
{
    let line = with_piece(line, label)?;
    with_named(line, member(value, key))
}

/// Returns the members `principal`, `action` and `resource` of a line: the names of the entities in a parsed body.
pub(crate) fn members_of(alloc: Global, value: &Option<Value>) -> Result<Vec<u8>, NoMemory>
    ensures { IfOk result (λ made. made.items ≡ members_text (option_map view value.now)) }
{
    let line = Vec::with_capacity(alloc, USUAL_LINE)?;
    let line = with_member(line, value, b",\"principal\":", "principal")?;
    let line = with_member(line, value, b",\"action\":", "action")?;
    let line = with_member(line, value, b",\"resource\":", "resource")?;
    Ok(line)
}
