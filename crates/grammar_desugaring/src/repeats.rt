//! The errors of names that repeat an earlier one.
ghost use Rattle.std.specs.Prelude.{◌≡◌, IfOk, map};
ghost use Rattle.std.specs.List.{AllByRecursion};
ghost use Rattle.grammar_desugaring.specs.inner.WellFormed.{WellFormedEntry};
ghost use Rattle.grammar_desugaring.specs.ReportedErrors.{least};
ghost use Rattle.grammar_desugaring.specs.Repeats.{repeat_faults, abstract_names};
ghost use Rattle.grammar_desugaring.specs.Faults.{key_of};
ghost use Rattle.grammar_desugaring.specs.inner.Searching.{repeat_fault, held};

use crate::fault::DesugarFault;
use crate::words::{name, place};
use grammar_syntax::{ExprTree, NameAt, RecordEntry, least_offset};
use plain::{NoMemory, Text};
use std::alloc::Global;

/// A key of a record, with its byte offset.
#[derive(Drop)]
pub(crate) struct Key {
    name: Text,
    at: usize,
}

/// Returns the error of a repeated name at this offset, or `None` without an offset.
fn fault_at(place: Option<usize>) -> Option<DesugarFault>
    ensures { result ≡ repeat_fault place }
{
    match place {
        Some(at) => Some(DesugarFault::RepeatedKey(at)),
        None => None,
    }
}

/// Returns the error of the repeated name at the least offset, or `None` if all names are distinct.
///
/// O(n log n) comparisons of names, where n is the length of `marks`. The only error is `NoMemory`.
#[tactic(auto, using(crate::proofs::Again::fault_told))]
pub fn first_duplicate(
    alloc: Global,
    marks: &[NameAt<'_>],
) -> Result<Option<DesugarFault>, NoMemory>
    ensures { IfOk result (λ fault. fault ≡ least (repeat_faults (abstract_names marks.now))) }
{
    let place = least_offset(alloc, marks)?;
    Ok(fault_at(place))
}

/// Returns the keys of a record, each with its offset.
fn keys_of(
    alloc: Global,
    text: &str,
    entries: &[RecordEntry<ExprTree>],
) -> Result<Vec<Key>, NoMemory>
    requires { AllByRecursion (WellFormedEntry text.now) entries.now }
    ensures { IfOk result (λ keys. map held keys.items ≡ map (key_of text.now) entries.now) }
{
    let mut keys = Vec::with_capacity(alloc, entries.len())?;
    for entry in entries {
        let name = name(alloc, text, entry.key)?;
        keys.push(Key {
            name,
            at: place(entry.key),
        })?;
    }
    Ok(keys)
}

/// Returns the keys with their names borrowed.
fn names_of<'a>(alloc: Global, keys: &'a [Key]) -> Result<Vec<NameAt<'a>>, NoMemory>
    ensures { IfOk result (λ marks. abstract_names marks.items ≡ map held keys.entry.now) }
{
    let mut marks = Vec::with_capacity(alloc, keys.len())?;
    for key in keys {
        marks.push(NameAt {
            name: key.name.as_str(),
            at: key.at,
        })?;
    }
    Ok(marks)
}

/// Returns the error of the repeated key of a record at the least offset, or `None` if all keys are distinct.
pub(crate) fn repeated_key(
    alloc: Global,
    text: &str,
    entries: &[RecordEntry<ExprTree>],
) -> Result<Option<DesugarFault>, NoMemory>
    requires { AllByRecursion (WellFormedEntry text.now) entries.now }
    ensures { IfOk result (λ fault. fault ≡ least (repeat_faults (map (key_of text.now) entries.now))) }
{
    let keys = keys_of(alloc, text, entries)?;
    let marks = names_of(alloc, &keys)?;
    first_duplicate(alloc, &marks)
}
