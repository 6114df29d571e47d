//! The errors of policies whose name occurs earlier in their file.
ghost use Rattle.std.specs.Prelude.{◌≡◌, ◌||◌, IfOk, length};
ghost use Rattle.std.specs.List.{AllByRecursion};
ghost use Rattle.grammar_parsing.specs.WellFormed.{WellFormedPolicy};
ghost use Rattle.policy_grammar.specs.CoreOf.{AreNamesOf};
ghost use Rattle.grammar_desugaring.specs.ReportedErrors.{least};
ghost use Rattle.grammar_desugaring.specs.Repeats.{repeat_faults, abstract_names};
ghost use Rattle.grammar_desugaring.specs.BuiltFrom.{IsBuiltFrom};
ghost use Rattle.policy_grammar.specs.Repeats.{policy_names, start_of};
ghost use Rattle.policy_grammar.specs.inner.Parts.{has_id, has_index_prefix, some_index_name, names_to_compare};

use crate::names::has_id;
use grammar_desugaring::{DesugarFault, NameAt, first_duplicate, repeats_are_exact};
use grammar_parsing::PolicyTree;
use plain::{NoMemory, Text};
use std::alloc::Global;

/// Returns the offset of a policy's first token.
fn start(tree: &PolicyTree) -> usize
    ensures { result ≡ start_of tree.now }
{
    match tree.annotations.as_slice() {
        [first, ..] => first.at.start,
        [] => tree.effect.start,
    }
}

/// Returns whether a policy is named by an `@id` that begins with `policy`, as names by index do.
fn has_index_prefix(text: &str, name: &Text, tree: &PolicyTree) -> bool
    requires { IsBuiltFrom text.now (λ tokens. WellFormedPolicy tokens tree.now) }
    ensures { result ≡ has_index_prefix text.now name.now tree.now }
{
    has_id(text, tree) && name.as_str().as_bytes().starts_with(b"policy")
}

/// Returns whether some `@id` of a file may equal a policy's name by index.
fn some_index_name(text: &str, names: &[Text], trees: &[PolicyTree]) -> bool
    requires same { length names.now ≡ length trees.now }
    requires is_well_formed { IsBuiltFrom text.now (λ tokens. AllByRecursion (WellFormedPolicy tokens) trees.now) }
    ensures { result ≡ some_index_name text.now names.now trees.now }
{
    for (i, tree) in trees.iter().enumerate() {
        if has_index_prefix(text, &names[i], tree) {
            return true;
        }
    }
    false
}

/// Returns whether the name of a policy may equal that of another policy: any name may if `wide` is true, else only the
/// value of an `@id`.
fn may_repeat(text: &str, wide: bool, tree: &PolicyTree) -> bool
    requires { IsBuiltFrom text.now (λ tokens. WellFormedPolicy tokens tree.now) }
    ensures { result ≡ (wide || has_id text.now tree.now) }
{
    wide || has_id(text, tree)
}

/// Returns the names that may equal another policy's name: the values of `@id`, or all names if `wide` is true. Each
/// has the offset of its policy's first token.
fn names_to_compare<'a>(
    alloc: Global,
    text: &str,
    wide: bool,
    names: &'a [Text],
    trees: &[PolicyTree],
) -> Result<Vec<NameAt<'a>>, NoMemory>
    requires same { length names.now ≡ length trees.now }
    requires is_well_formed { IsBuiltFrom text.now (λ tokens. AllByRecursion (WellFormedPolicy tokens) trees.now) }
    ensures { IfOk result
        (λ marks. abstract_names marks.items ≡ names_to_compare text.now wide names.entry.now trees.now) }
{
    let mut marks = Vec::new(alloc);
    for (i, tree) in trees.iter().enumerate() {
        if !may_repeat(text, wide, tree) {
            continue;
        }
        marks.push(NameAt {
            name: names[i].as_str(),
            at: start(tree),
        })?;
    }
    Ok(marks)
}

/// Returns the repeated-name error of a file's policies at the least offset, or `None` if all names are distinct.
///
/// Names by index are distinct, so they are compared only if some `@id` may equal one.
pub(crate) fn repeated_name(
    alloc: Global,
    text: &str,
    names: &[Text],
    trees: &[PolicyTree],
) -> Result<Option<DesugarFault>, NoMemory>
    requires named { AreNamesOf text.now trees.now names.now }
    requires is_well_formed { IsBuiltFrom text.now (λ tokens. AllByRecursion (WellFormedPolicy tokens) trees.now) }
    ensures { IfOk result (λ fault. fault ≡ least (repeat_faults (policy_names names.now trees.now))) }
{
    repeats_are_exact();
    let wide = some_index_name(text, names, trees);
    let marks = names_to_compare(alloc, text, wide, names, trees)?;
    first_duplicate(alloc, &marks)
}
