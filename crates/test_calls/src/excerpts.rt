//! Test cases of positions in texts, and of the excerpts that show them.
use crate::keeping::ended;
use crate::pieces::Line;
use crate::written::bad_row;
use explanations::{excerpt_at, place_of};
use plain::NoMemory;
use std::alloc::Global;

/// Appends a character; appends a line feed or a tab as its escape.
fn push_shown(told: &mut Line, letter: char) {
    match letter {
        '\n' => told.push("\\n"),
        '\t' => told.push("\\t"),
        other => told.push_char(other),
    }
}

/// Returns lines as one line.
fn in_one_line(alloc: Global, lines: &str) -> Result<String, NoMemory> {
    let mut told = Line::new(alloc);
    for letter in lines.chars() {
        push_shown(&mut told, letter);
    }
    told.ended()
}

/// Returns the excerpt that shows the part of a text after its first `from` bytes and before its last `behind` bytes.
/// The excerpt names a file whose name has a control character (U+009B).
fn excerpt(alloc: Global, text: &str, from: usize, behind: usize) -> Result<String, NoMemory> {
    let start = place_of(text, from);
    let end = place_of(text, text.len().saturating_sub(behind));
    let lines = excerpt_at(alloc, "f\u{9b}", text, start, start.span_to(&end))?;
    in_one_line(alloc, lines.as_str())
}

/// Returns the excerpt of a text in which two bars enclose the shown part.
pub(crate) fn marked(alloc: Global, text: &str) -> Result<String, NoMemory> {
    let Some((before, rest)) = text.split_once('|') else {
        return bad_row(alloc);
    };
    let Some((meant, behind)) = rest.split_once('|') else {
        return bad_row(alloc);
    };
    let whole = format!(in alloc; "{before}{meant}{behind}")?;
    let told = excerpt(alloc, whole.as_str(), before.len(), behind.len());
    ended(whole, told)
}

/// Returns the line and the column of a byte of a text, and the offset of the first byte of its character; in `row` the
/// byte's offset precedes the text.
pub(crate) fn placed(alloc: Global, row: &str) -> Result<String, NoMemory> {
    let (number, text) = row.split_once(' ').unwrap_or((row, ""));
    let Ok(at) = number.parse::<usize>() else {
        return bad_row(alloc);
    };
    let place = place_of(text, at);
    let (line, column, start) = (place.line, place.column, place.start);
    format!(in alloc; "{line}:{column} from {start}")
}
