//! Repeated names.
ghost use Rattle.std.specs.Prelude.{◌≡◌, IfOk};
ghost use Rattle.grammar_syntax.specs.Repeats.{IsRepeatedAt, ReportsLeast, abstract_names};
ghost use Rattle.grammar_syntax.specs.inner.Lesser.{lesser_of};

use plain::NoMemory;
use std::alloc::Global;
use std::collections::BTreeSet;

/// A name with its byte offset.
#[derive(Clone, Copy)]
pub struct NameAt<'a> {
    pub name: &'a str,
    pub at: usize,
}

/// Returns the lesser of the offsets that are present, or `None` if neither is.
fn lesser(a: Option<usize>, b: Option<usize>) -> Option<usize>
    ensures { result ≡ lesser_of a b }
{
    match (a, b) {
        (Some(first), Some(second)) => Some(first.min(second)),
        (None, other) => other,
        (one, None) => one,
    }
}

/// Returns the least offset at which a name occurs that also occurs earlier in `marks`, or `None` if all names are
/// distinct.
///
/// O(n log n) comparisons of names, where n is the length of `marks`. Source: Cedar reference guide 4.0, "Data types:
/// Record".
///
/// # Errors
///
/// - `NoMemory`: an allocation failed.
pub fn least_offset(alloc: Global, marks: &[NameAt<'_>]) -> Result<Option<usize>, NoMemory>
    ensures { IfOk result (ReportsLeast (IsRepeatedAt (abstract_names marks.now))) }
{
    let mut seen = BTreeSet::new(alloc);
    let mut least = None;
    for mark in marks {
        if !seen.insert(mark.name)? {
            least = lesser(least, Some(mark.at));
        }
    }
    Ok(least)
}
