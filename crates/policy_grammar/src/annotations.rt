//! The errors of annotations that repeat an earlier key.
ghost use Rattle.std.specs.Prelude.{◌≡◌, IfOk};
ghost use Rattle.grammar_parsing.specs.WellFormed.{WellFormedPolicy};
ghost use Rattle.grammar_desugaring.specs.ReportedErrors.{least};
ghost use Rattle.grammar_desugaring.specs.Repeats.{repeat_faults, abstract_names};
ghost use Rattle.grammar_desugaring.specs.BuiltFrom.{IsBuiltFrom};
ghost use Rattle.policy_grammar.specs.Annotations.{annotation_keys};

use grammar_desugaring::{DesugarFault, NameAt, first_duplicate, spelling};
use grammar_parsing::PolicyTree;
use plain::NoMemory;
use std::alloc::Global;

/// Returns the keys of a policy's annotations, each with the offset of its `@`.
fn names_of_annotations<'a>(
    alloc: Global,
    text: &'a str,
    tree: &PolicyTree,
) -> Result<Vec<NameAt<'a>>, NoMemory>
    requires { IsBuiltFrom text.now (λ tokens. WellFormedPolicy tokens tree.now) }
    ensures { IfOk result (λ marks. abstract_names marks.items ≡ annotation_keys text.entry.now tree.now) }
{
    let mut marks = Vec::new(alloc);
    for annotation in tree.annotations.as_slice() {
        marks.push(NameAt {
            name: spelling(text, annotation.key),
            at: annotation.at.start,
        })?;
    }
    Ok(marks)
}

/// Returns the repeated-key error of a policy's annotations at the least offset, or `None` if all keys are distinct.
///
/// The only error is `NoMemory`.
pub fn repeated_annotation(
    alloc: Global,
    text: &str,
    tree: &PolicyTree,
) -> Result<Option<DesugarFault>, NoMemory>
    requires { IsBuiltFrom text.now (λ tokens. WellFormedPolicy tokens tree.now) }
    ensures { IfOk result (λ fault. fault ≡ least (repeat_faults (annotation_keys text.now tree.now))) }
{
    let keys = names_of_annotations(alloc, text, tree)?;
    first_duplicate(alloc, &keys)
}
