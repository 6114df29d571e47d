//! Explanations of an error in a part of a text.
ghost use Rattle.std.specs.Prelude.{◌≡◌, ◌++◌, OnOk, string_bytes, ℕ, List};
ghost use Rattle.explanations.specs.ExplanationText.{says_line, detail_line, hint_line};
ghost use Rattle.explanations.specs.ExplanationText.{AreClean, AreWordsOf, IsSourceText};
ghost use Rattle.explanations.specs.CodeText.{words_on};

use crate::excerpts::push_excerpt;
use crate::finding::SourceFinding;
use crate::places::place_of;
use crate::segments::{Segment, push_all};
use crate::table::words_of;
use plain::NoMemory;
use std::alloc::Global;

// At most this many characters of a cause are shown.
const MOST_CAUSE: usize = 60;

// At most this many characters of a detail are shown.
const MOST_DETAIL: usize = 400;

/// Returns the table's words on what is wrong and what to do for a code, or two fixed texts if no error has this code.
pub(crate) fn says_and_advice(code: u16) -> (&'static str, &'static str)
    ensures clean { AreClean result.0.now result.1.now }
    ensures words { AreWordsOf (words_on code) result.0.now result.1.now }
{
    match words_of(code) {
        Some(words) => (words.says, words.advice),
        None => ("rejected", "docs/codes.md has the codes"),
    }
}

/// Appends the line `error CODE: SAYS`, with the cause at its end.
pub(crate) fn push_says<'t>(
    out: &mut String,
    code: u16,
    says: &'t str,
    cause: &'t str,
) -> Result<(), NoMemory>
    ensures { OnOk result (string_bytes out.new ≡ string_bytes out.old ++ says_line code says.now cause.now) }
{
    push_all(
        out,
        &[
            Segment::Text("error "),
            Segment::Number(usize::from(code)),
            Segment::Text(": "),
            Segment::Text(says),
            Segment::Framed(" `", cause, MOST_CAUSE, "`"),
            Segment::Text("\n"),
        ],
    )
}

/// Appends the lines of `detail` and `note`, each cut after 400 characters and left out if it is empty, and the line
/// that says what to do.
pub(crate) fn push_rest<'t>(
    out: &mut String,
    detail: &'t str,
    note: &'t str,
    advice: &'t str,
) -> Result<(), NoMemory>
    ensures { OnOk result (string_bytes out.new
        ≡ string_bytes out.old ++ (detail_line detail.now ++ detail_line note.now ++ hint_line advice.now)) }
{
    push_all(
        out,
        &[
            Segment::Framed("  ", detail, MOST_DETAIL, "\n"),
            Segment::Framed("  ", note, MOST_DETAIL, "\n"),
            Segment::Text("  hint: "),
            Segment::Text(advice),
            Segment::Text("\n"),
        ],
    )
}

/// Appends the explanation of an error in `text`, the text of the file `file`: what is wrong, the excerpt at the place
/// of the error, the detail and the note if there are any, and a hint.
///
/// O(length of `text`, of `file` and of the texts of `finding`).
///
/// # Errors
///
/// - `NoMemory`: an allocation failed. A part of the text may then be appended.
pub(crate) fn push_source(
    alloc: Global,
    out: &mut String,
    file: &str,
    text: &str,
    finding: &SourceFinding<'_>,
) -> Result<(), NoMemory>
    ensures { OnOk result ((bytes : List ℕ) × IsSourceText file.now text.now finding.now bytes
        × (string_bytes out.new ≡ string_bytes out.old ++ bytes)) }
{
    let place = place_of(text, finding.start);
    let end = place_of(text, finding.end);
    let span = place.span_to(&end);
    let (says, advice) = says_and_advice(finding.code);
    push_says(out, finding.code, says, finding.cause)?;
    push_excerpt(alloc, out, file, text, place, span)?;
    push_rest(out, finding.detail, finding.note, advice)
}
