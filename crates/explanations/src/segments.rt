//! The segments of which explanations are made.
ghost use Rattle.std.specs.Prelude.{◌≡◌, ◌++◌, OnOk, string_bytes, length, chars, encode_utf8_all, map, take, drop};
ghost use Rattle.std.specs.List.{flat_map};
ghost use Rattle.explanations.specs.Excerpt.{is_hidden, mark_if};
ghost use Rattle.explanations.specs.ExplanationText.{framed, index_words};
ghost use Rattle.explanations.specs.inner.Segments.{drawn_char, bytes_of};

use plain::NoMemory;
use std::iter::repeat_n;

/// A segment of an explanation.
#[derive(Clone, Copy)]
pub(crate) enum Segment<'t> {
    /// `Text(text)`: `text` as it is.
    Text(&'t str),
    /// `Number(number)`: `number` in decimal.
    Number(usize),
    /// `Shown(text, skipped, count)`: `count` characters of `text`, after its first `skipped`, with U+FFFD for control
    /// characters except tabs and for those that change the direction of writing.
    Shown(&'t str, usize, usize),
    /// `Blanks(text, skipped, count)`: blanks as wide as these characters of `text`.
    Blanks(&'t str, usize, usize),
    /// `Repeated(c, count)`: `count` characters `c`.
    Repeated(char, usize),
    /// `Index(index)`: `, entity INDEX (from 0)`; nothing without an index.
    Index(Option<usize>),
    /// `Framed(before, text, most, after)`: `before`, `text` cut after `most` characters, and `after`; nothing if
    /// `text` is empty.
    Framed(&'t str, &'t str, usize, &'t str),
}

// Returns whether a character is a control character other than a tab, or changes the direction of writing.
fn is_hidden_char(c: char) -> bool
    ensures { result ≡ is_hidden c }
{
    matches!(
        c,
        '\0'..='\u{8}'
            | '\n'..='\u{1f}'
            | '\u{7f}'..='\u{9f}'
            | '\u{61c}'
            | '\u{200e}'..='\u{200f}'
            | '\u{202a}'..='\u{202e}'
            | '\u{2066}'..='\u{2069}'
    )
}

// Returns the character that is written for `c`: if `are_blank`, a blank as wide, which is a tab for a tab and else a
// space; else `c` as it is shown, which is U+FFFD if `c` is hidden.
fn drawn_for(c: char, are_blank: bool) -> char
    ensures { result ≡ drawn_char are_blank c }
{
    if are_blank {
        if c == '\t' { '\t' } else { ' ' }
    } else if is_hidden_char(c) {
        '\u{fffd}'
    } else {
        c
    }
}

/// Returns the number of characters of a text.
pub(crate) fn count_chars(text: &str) -> usize
    ensures { result ≡ length (chars text.now) }
{
    text.chars().count()
}

/// Returns `mark` if something is cut, else an empty text.
pub(crate) fn mark_if(is_cut: bool, mark: &str) -> &str
    ensures { result.now ≡ mark_if is_cut mark.now }
{
    if is_cut { mark } else { "" }
}

// Appends `count` characters of `text`, after its first `skipped`: if `are_blank`, blanks as wide as the characters,
// else the characters as they are shown.
fn push_chars(
    out: &mut String,
    text: &str,
    skipped: usize,
    count: usize,
    are_blank: bool,
) -> Result<(), NoMemory>
    ensures { OnOk result (string_bytes out.new ≡ string_bytes out.old
        ++ encode_utf8_all (map (drawn_char are_blank) (take count (drop skipped (chars text.now))))) }
{
    for c in text.chars().skip(skipped).take(count) {
        out.push(drawn_for(c, are_blank))?;
    }
    Ok(())
}

// Appends `before`, `text` cut after `most` characters, and `after`; nothing if `text` is empty.
fn push_framed(
    out: &mut String,
    before: &str,
    text: &str,
    most: usize,
    after: &str,
) -> Result<(), NoMemory>
    ensures { OnOk result (string_bytes out.new ≡ string_bytes out.old ++ framed before.now text.now most after.now) }
{
    if text.is_empty() {
        return Ok(());
    }
    out.push_str(before)?;
    push_chars(out, text, 0, most, false)?;
    out.push_str(mark_if(most < count_chars(text), ".."))?;
    out.push_str(after)
}

// Appends `, entity INDEX (from 0)`, or nothing without an index.
fn push_index(out: &mut String, index: Option<usize>) -> Result<(), NoMemory>
    ensures { OnOk result (string_bytes out.new ≡ string_bytes out.old ++ index_words index) }
{
    match index {
        Some(index) => write!(out, ", entity {index} (from 0)"),
        None => Ok(()),
    }
}

// Appends a segment.
fn push_segment(out: &mut String, segment: Segment<'_>) -> Result<(), NoMemory>
    ensures { OnOk result (string_bytes out.new ≡ string_bytes out.old ++ bytes_of segment.entry) }
{
    match segment {
        Segment::Text(text) => out.push_str(text),
        Segment::Number(number) => write!(out, "{number}"),
        Segment::Shown(text, skipped, count) => push_chars(out, text, skipped, count, false),
        Segment::Blanks(text, skipped, count) => push_chars(out, text, skipped, count, true),
        Segment::Repeated(c, count) => out.extend(repeat_n(c, count)),
        Segment::Index(index) => push_index(out, index),
        Segment::Framed(before, text, most, after) => push_framed(out, before, text, most, after),
    }
}

/// Appends segments.
pub(crate) fn push_all(out: &mut String, segments: &[Segment<'_>]) -> Result<(), NoMemory>
    ensures { OnOk result (string_bytes out.new ≡ string_bytes out.old ++ flat_map bytes_of segments.now) }
{
    for segment in segments {
        push_segment(out, *segment)?;
    }
    Ok(())
}
