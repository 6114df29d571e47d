//! Explanations of an error of a text as a whole, or of an item of an array; they show no line of the text.
ghost use Rattle.std.specs.Prelude.{◌≡◌, ◌++◌, OnOk, string_bytes, ℕ, List};
ghost use Rattle.explanations.specs.ExplanationText.{IsWholeText};

use crate::finding::WholeFinding;
use crate::segments::{Segment, push_all};
use crate::source::{push_rest, push_says, says_and_advice};
use plain::NoMemory;

/// Appends the explanation of an error in the file `file`: what is wrong, the file with the index of the item at fault,
/// the detail, and a hint.
///
/// # Errors
///
/// - `NoMemory`: an allocation failed. A part of the text may then be appended.
pub(crate) fn push_whole(
    out: &mut String,
    file: &str,
    finding: &WholeFinding<'_>,
) -> Result<(), NoMemory>
    ensures { OnOk result ((bytes : List ℕ) × IsWholeText file.now finding.now bytes
        × (string_bytes out.new ≡ string_bytes out.old ++ bytes)) }
{
    let (says, advice) = says_and_advice(finding.code);
    push_says(out, finding.code, says, "")?;
    push_all(
        out,
        &[
            Segment::Text(" --> "),
            Segment::Shown(file, 0, file.len()),
            Segment::Index(finding.index),
            Segment::Text("\n"),
        ],
    )?;
    push_rest(out, finding.detail, "", advice)
}
