//! Explains that a message is rejected.
ghost use Rattle.std.specs.Prelude.{◌≡◌, ◌++◌, IfOk, OnOk, string_bytes};
ghost use Rattle.schema_decisions.specs.answer_lines.Refusals.{number_in};
ghost use Rattle.explanations.specs.CodeText.{words_on};
ghost use Rattle.explanations.specs.TextParts.{name_in, inner_words, entry_words, IsMessageExplained};

use crate::finding::WholeFinding;
use crate::segments::{Segment, push_all};
use crate::table::words_of;
use crate::whole::push_whole;
use plain::NoMemory;
use schema_decisions::Refusal;
use std::alloc::Global;

/// Returns the name of an error code; empty if no error has this code.
fn name_of(code: u8) -> &'static str
    ensures { result.now ≡ name_in (words_on code) }
{
    match words_of(u16::from(code)) {
        Some(words) => words.name,
        None => "",
    }
}

/// Appends the words on the inner error with this code: the code and its name, if it has one; nothing without a code.
fn push_inner(out: &mut String, within: Option<u8>) -> Result<(), NoMemory>
    ensures { OnOk result (string_bytes out.new ≡ string_bytes out.old ++ inner_words within) }
{
    match within {
        Some(code) => push_all(
            out,
            &[
                Segment::Text(", error "),
                Segment::Number(usize::from(code)),
                Segment::Text(": "),
                Segment::Text(name_of(code)),
            ],
        ),
        None => Ok(()),
    }
}

/// Appends the words on the entry at fault of a rejected message: its index, and its own error if there is one; no
/// words without an index.
fn push_entry(out: &mut String, refusal: Refusal) -> Result<(), NoMemory>
    ensures { OnOk result (string_bytes out.new
        ≡ string_bytes out.old ++ entry_words (number_in refusal.place) refusal.within) }
{
    match refusal.place_number() {
        Some(index) => {
            push_all(
                out,
                &[
                    Segment::Text("entry "),
                    Segment::Number(index),
                    Segment::Text(" (from 0)"),
                ],
            )?;
            push_inner(out, refusal.within)
        }
        None => Ok(()),
    }
}

/// Returns the text that explains that the message in the file `name` is rejected with `refusal`: what is wrong, the
/// file, the index of the entry at fault with the entry's own error, if they are known, and a hint.
///
/// # Errors
///
/// - `NoMemory`: an allocation failed.
pub fn explain_message(alloc: Global, name: &str, refusal: Refusal) -> Result<String, NoMemory>
    ensures { IfOk result (λ text. IsMessageExplained name.now refusal (string_bytes text)) }
{
    let mut words = String::new(alloc);
    push_entry(&mut words, refusal)?;
    let finding = WholeFinding {
        code: u16::from(refusal.code),
        index: None,
        detail: words.as_str(),
    };
    let mut out = String::new(alloc);
    push_whole(&mut out, name, &finding)?;
    Ok(out)
}
