//! The excerpt that shows a place in a text.
ghost use Rattle.std.specs.Prelude.{◌≡◌, ◌++◌, length, chars, IfOk, OnOk, string_bytes};
ghost use Rattle.explanations.specs.LineAndColumn.{line_of};
ghost use Rattle.explanations.specs.Excerpt.{place_in, cut_before, end_of};
ghost use Rattle.explanations.specs.Excerpt.{heading, line_row, caret_row, excerpt};

use crate::places::{TextPosition, line_at};
use crate::segments::{Segment, count_chars, mark_if, push_all};
use plain::NoMemory;
use std::alloc::Global;

// At most WIDTH characters of a line are shown, beginning LEAD characters before the place; earlier if the line ends
// within WIDTH - LEAD characters after the place.
const WIDTH: usize = 160;

const LEAD: usize = 80;

// The shown part of a line, in characters from the line's beginning.
#[derive(Clone, Copy)]
struct Cut {
    // The number of characters of the line.
    len: usize,
    // The number of characters before the place.
    place: usize,
    // The number of characters cut before the shown part, and the index at which that part ends.
    before: usize,
    end: usize,
}

// Returns the part of `line` that an excerpt shows for a place at this column, counted from 1.
fn shown_part(line: &str, column: usize) -> Cut
    ensures len { result.len ≡ length (chars line.now) }
    ensures place { result.place ≡ place_in (length (chars line.now)) column }
    ensures before { result.before ≡ cut_before (length (chars line.now)) result.place }
    ensures end { result.end ≡ end_of (length (chars line.now)) result.before }
{
    let len = count_chars(line);
    let place: usize = column.saturating_sub(1).min(len);
    let before: usize = place.saturating_sub(LEAD).min(len.saturating_sub(WIDTH));
    let end: usize = len.min(before + WIDTH);
    Cut {
        len,
        place,
        before,
        end,
    }
}

// Appends the three rows of an excerpt, where `digits` is the number of digits of the line's number.
fn push_rows<'t>(
    out: &mut String,
    file: &'t str,
    line: &'t str,
    place: TextPosition,
    cut: &Cut,
    digits: usize,
    carets: usize,
) -> Result<(), NoMemory>
    requires { cut.now.len ≡ length (chars line.now) }
    ensures { OnOk result (string_bytes out.new ≡ string_bytes out.old
        ++ (heading file.now place.line place.column ++ line_row place.line line.now cut.now.before cut.now.end
        ++ caret_row digits line.now cut.now.before cut.now.place carets)) }
{
    push_all(
        out,
        &[
            Segment::Text(" --> "),
            Segment::Shown(file, 0, file.len()),
            Segment::Text(":"),
            Segment::Number(place.line),
            Segment::Text(":"),
            Segment::Number(place.column),
            Segment::Text("\n"),
            Segment::Number(place.line),
            Segment::Text(" | "),
            Segment::Text(mark_if(0 < cut.before, "..")),
            Segment::Shown(line, cut.before, cut.end.saturating_sub(cut.before)),
            Segment::Text(mark_if(cut.end < cut.len, "..")),
            Segment::Text("\n"),
            Segment::Repeated(' ', digits),
            Segment::Text(" | "),
            Segment::Text(mark_if(0 < cut.before, "  ")),
            Segment::Blanks(line, cut.before, cut.place.saturating_sub(cut.before)),
            Segment::Repeated('^', carets),
            Segment::Text("\n"),
        ],
    )
}

// Appends the excerpt that [`excerpt_at`] returns.
pub(crate) fn push_excerpt(
    alloc: Global,
    out: &mut String,
    file: &str,
    text: &str,
    place: TextPosition,
    span: usize,
) -> Result<(), NoMemory>
    ensures { OnOk result (string_bytes out.new ≡ string_bytes out.old
        ++ excerpt file.now (line_of text.now place.line) place.line place.column span) }
{
    let line = line_at(text, place.line);
    let cut = shown_part(line, place.column);
    let digits = place.line.to_string(alloc)?.len();
    let carets: usize = span.min(cut.end.saturating_sub(cut.place)).max(1);
    push_rows(out, file, line, place, &cut, digits, carets)
}

/// Returns the excerpt that shows a place of a text: its position in `file`, its line, and carets under it.
///
/// Carets are under the `span` characters from the place on, except those past the shown part of the line; there is at
/// least one caret. `place` should be one that [`place_of`] returned for `text`; for another line or column the excerpt
/// shows what the text has there. Tabs, also before carets, stay tabs. Other control characters, and those that change
/// the direction of writing, are shown as U+FFFD. Of a line longer than 160 characters, 160 around the place are shown,
/// with `..` where the line is cut. Each row ends with a line feed.
///
/// O(length of `text` and of `file`).
///
/// # Errors
///
/// - `NoMemory`: an allocation failed.
///
/// [`place_of`]: crate::place_of
pub fn excerpt_at(
    alloc: Global,
    file: &str,
    text: &str,
    place: TextPosition,
    span: usize,
) -> Result<String, NoMemory>
    ensures { IfOk result (λ rows. string_bytes rows
        ≡ excerpt file.now (line_of text.now place.line) place.line place.column span) }
{
    let mut rows = String::new(alloc);
    push_excerpt(alloc, &mut rows, file, text, place, span)?;
    Ok(rows)
}
