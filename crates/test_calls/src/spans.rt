//! Test cases of spans in policies: the text of the core node at a path, or of its name.
use crate::written::shown;
use fault_places::{Span, name_span, span_of};
use plain::NoMemory;
use std::alloc::Global;

/// Returns the path of these digits.
fn path_of(alloc: Global, digits: &str) -> Result<Vec<usize>, NoMemory> {
    let mut path = Vec::new(alloc);
    for digit in digits.as_bytes() {
        if digit.is_ascii_digit() {
            path.push((*digit & 15) as usize)?;
        }
    }
    Ok(path)
}

/// Returns the span of the node at a path or, for the word `named`, of its name.
fn span_by(
    alloc: Global,
    word: &str,
    text: &str,
    path: &[usize],
) -> Result<Option<Span>, NoMemory> {
    if word == "named" {
        return name_span(alloc, text, path);
    }
    span_of(alloc, text, path)
}

/// Returns the text of a span; `none` without a span, `outside` if the span does not lie in the text.
fn outcome_text(alloc: Global, text: &str, span: Option<Span>) -> Result<String, NoMemory> {
    match span {
        Some(at) => match text.as_bytes().get(at.start..at.end) {
            Some(bytes) => shown(alloc, bytes),
            None => String::from_str(alloc, "outside"),
        },
        None => String::from_str(alloc, "none"),
    }
}

/// Returns the text that a policy has at a path. In `row` the path's digits precede the policy; `-` is the empty path.
fn spanned(alloc: Global, word: &str, row: &str) -> Result<String, NoMemory> {
    let (digits, text) = row.split_once(' ').unwrap_or((row, ""));
    let path = path_of(alloc, digits)?;
    let span = span_by(alloc, word, text, path.as_slice())?;
    outcome_text(alloc, text, span)
}

/// Returns the outcome of the test case `word` for the text `bytes`.
pub(crate) fn row_outcome(alloc: Global, word: &str, bytes: &[u8]) -> Result<String, NoMemory> {
    match std::str::from_utf8(bytes) {
        Ok(text) => spanned(alloc, word, text),
        Err(_) => String::from_str(alloc, "no UTF-8"),
    }
}
