//! Parts of a text, and the texts that explain errors.
ghost use Rattle.std.specs.Prelude.{◌≡◌, OnOk, string_bytes};
ghost use Rattle.schema_decisions.specs.answer_lines.Refusals.{no_memory};
ghost use Rattle.schema_decisions.specs.answer_lines.Refusals.{number_in};
ghost use Rattle.explanations.specs.TextParts.{IsPartOf, IsWholeAt, AppendsSome};

use crate::finding::WholeFinding;
use crate::whole::push_whole;
use plain::NoMemory;
use schema_decisions::Refusal;

/// Returns the text between two bytes; nothing if they are not character boundaries in this order.
pub(crate) fn part_of(text: &str, from: usize, to: usize) -> &str
    ensures { IsPartOf text.now from to result.now }
{
    match text.split_at_checked(to) {
        Some((before, _)) => match before.split_at_checked(from) {
            Some((_, part)) => part,
            None => "",
        },
        None => "",
    }
}

/// Checks that the error is not `NoMemory`.
///
/// # Errors
///
/// - `NoMemory`: the error is `NoMemory`.
pub(crate) fn unless_no_memory(refusal: Refusal) -> Result<(), NoMemory>
    ensures { OnOk result (refusal ≡ no_memory → ⊥) }
{
    if refusal.code == 1 {
        return Err(NoMemory);
    }
    Ok(())
}

/// Appends the text that explains an error in the file `file`: with the index of the item at fault, if the error has an
/// index, and with the detail `detail`.
///
/// # Errors
///
/// - `NoMemory`: an allocation failed, or the error is `NoMemory`.
pub(crate) fn push_refusal(
    out: &mut String,
    file: &str,
    refusal: Refusal,
    detail: &str,
) -> Result<(), NoMemory>
    ensures { OnOk result ((refusal ≡ no_memory → ⊥)
        × AppendsSome (IsWholeAt file.now refusal.code (number_in refusal.place) (λ words. words ≡ detail.now))
        (string_bytes out.old) (string_bytes out.new)) }
{
    unless_no_memory(refusal)?;
    let finding = WholeFinding {
        code: u16::from(refusal.code),
        index: refusal.place_number(),
        detail,
    };
    push_whole(out, file, &finding)
}
