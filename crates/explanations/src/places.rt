//! Lines and columns.
ghost use Rattle.std.specs.Prelude.{◌≡◌, chars};
ghost use Rattle.explanations.specs.LineAndColumn.{line_after, column_after, line_of};
ghost use Rattle.explanations.specs.ExplanationText.{IsPlaceOf, span_between};

/// A place in a text, by line and column.
#[derive(Clone, Copy)]
pub struct TextPosition {
    /// The line, counted from 1.
    pub line: usize,
    /// The column, counted from 1 in characters.
    pub column: usize,
    /// The offset of the byte at which the character at the place begins, counted from 0; the text's length at the
    /// text's end.
    pub start: usize,
}

impl TextPosition {
    /// Returns the number of characters from this place up to `end`, or `usize::MAX` if `end` is on another line: an
    /// excerpt then marks the rest of this line.
    ///
    /// `end` should be a place of the same text and not before this one.
    pub fn span_to(&self, end: &TextPosition) -> usize
        ensures { result ≡ span_between self.now end.now }
    {
        if self.line == end.line {
            end.column.saturating_sub(self.column)
        } else {
            usize::MAX
        }
    }
}

// Returns the line and the column of the place after `before`, the part of a text that precedes the place.
fn line_and_column(before: &str) -> (usize, usize)
    ensures line { result.0 ≡ line_after (chars before.now) }
    ensures column { result.1 ≡ column_after (chars before.now) }
{
    let mut line = 1;
    let mut column = 1;
    for c in before.chars() {
        if c == '\n' {
            line += 1;
            column = 1;
        } else {
            column += 1;
        }
    }
    (line, column)
}

/// Returns the place of the byte `at` of a text: that of the character that contains the byte, or of the text's end if
/// none does.
///
/// The line feed at a line's end, and a carriage return before it, are characters of that line.
///
/// O(`at`). Does not allocate.
pub fn place_of(text: &str, at: usize) -> TextPosition
    ensures { IsPlaceOf text.now at result }
{
    let start = text.floor_char_boundary(at);
    let (before, _) = text.split_at(start);
    let (line, column) = line_and_column(before);
    TextPosition {
        line,
        column,
        start,
    }
}

/// Returns the line of a text with this number, counted from 1, without its line end: a line feed, or a carriage return
/// and a line feed.
///
/// The result is empty if the text has no such line, and the first line for the number 0.
///
/// O(length of `text`). Does not allocate.
pub(crate) fn line_at(text: &str, line: usize) -> &str
    ensures { result.now ≡ line_of text.now line }
{
    text.lines().nth(line.saturating_sub(1)).unwrap_or("")
}
