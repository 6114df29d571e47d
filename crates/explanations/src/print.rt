//! The text on an error code.
ghost use Rattle.std.specs.Prelude.{◌≡◌, IfOk, string_bytes};
ghost use Rattle.explanations.specs.CodeText.{code_text, texts_of};

use crate::segments::{Segment, push_all};
use crate::table::CodeWords;
use plain::NoMemory;
use std::alloc::Global;

/// Returns the text on the error code of `words`: four lines with the code and its name, its meaning, an example, and
/// what to do.
///
/// The last line has no line feed.
///
/// # Errors
///
/// - `NoMemory`: an allocation failed.
pub fn code_text(alloc: Global, words: &CodeWords<&str>) -> Result<String, NoMemory>
    ensures { IfOk result (λ text. string_bytes text ≡ code_text (texts_of words.now)) }
{
    let mut text = words.code.to_string(alloc)?;
    push_all(
        &mut text,
        &[
            Segment::Text(", "),
            Segment::Text(words.name),
            Segment::Text("\nmeans: "),
            Segment::Text(words.meaning),
            Segment::Text("\nexample: "),
            Segment::Text(words.example),
            Segment::Text("\nwhat to do: "),
            Segment::Text(words.advice),
        ],
    )?;
    Ok(text)
}
