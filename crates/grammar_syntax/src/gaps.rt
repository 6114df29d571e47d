//! Whitespace and comments between tokens.
ghost use Rattle.std.specs.Prelude.{◌≡◌, ◌≤◌, length};
ghost use Rattle.grammar_syntax.specs.Lexing.{in_line};
ghost use Rattle.plain.specs.Words.{run};
ghost use Rattle.grammar_syntax.specs.inner.Tokenizing.{ReportsBlank, ReportsGap};

/// Returns whether a comment may contain this byte.
#[tactic(auto, unfolding(crate::specs::Lexing::in_line))]
fn in_line(byte: u8) -> bool
    ensures { result ≡ in_line byte }
{
    !(byte == b'\n' || byte == b'\r')
}

/// Returns the number of bytes before the end of the first line of a text.
fn line_len(text: &[u8]) -> usize
    ensures is { result ≡ run in_line text.now }
    ensures within { result ≤ length text.now }
{
    let mut len = 0;
    for byte in text {
        if !in_line(*byte) {
            return len;
        }
        len += 1;
    }
    len
}

/// Returns the number of bytes of the whitespace character that a text begins with, or `None` if it does not begin with
/// one.
fn blank(text: &str) -> Option<usize>
    ensures { ReportsBlank text.now result }
{
    let Some(c) = text.chars().next() else {
        return None;
    };
    if c.is_whitespace() {
        Some(c.len_utf8())
    } else {
        None
    }
}

/// Returns the number of bytes of the whitespace character or comment that a text begins with, or `None` if it begins
/// with neither.
pub(crate) fn gap(text: &str) -> Option<usize>
    ensures { ReportsGap text.now result }
{
    if let Some(len) = blank(text) {
        return Some(len);
    }
    let (first, rest) = text.as_bytes().split_first()?;
    let (second, said) = rest.split_first()?;
    if *first != b'/' {
        return None;
    }
    if *second != b'/' {
        return None;
    }
    Some(line_len(said) + 2)
}
