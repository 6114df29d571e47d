//! Names of the policies in a file.
ghost use Rattle.std.specs.Prelude.{◌≡◌, ◌++◌, [], IfOk, IfSome, codes, decimal, find, length, map, string_bytes};
ghost use Rattle.std.specs.Option.{option_copied};
ghost use Rattle.std.specs.List.{AllByRecursion};
ghost use Rattle.grammar_parsing.specs.WellFormed.{WellFormedAnnotation, WellFormedPolicy};
ghost use Rattle.policy_grammar.specs.Conditions.{condition_faults};
ghost use Rattle.policy_grammar.specs.CoreOf.{IsValueOf, is_id, IsNameOf, AreNamesOf, AreCoresOf};
ghost use Rattle.grammar_desugaring.specs.BuiltFrom.{IsBuiltFrom};
ghost use Rattle.policy_grammar.specs.inner.Parts.{has_id};

use crate::core_of::core_like;
use crate::dropping::after;
use crate::policy::Policy;
use grammar_desugaring::{decode_string, spelling};
use grammar_parsing::{Annotation, PolicyTree};
use itoa::Buffer;
use plain::{NoMemory, Text};
use std::alloc::Global;
use std::collections::VecDeque;

/// The number of bytes of the longest name by index: `policy` and twenty digits.
const MOST_PLACED_BYTES: usize = 26;

/// Returns the first annotation with the key `id`, if there is one.
fn id_of<'a>(text: &str, annotations: &'a [Annotation]) -> Option<&'a Annotation>
    requires { IsBuiltFrom text.now (λ tokens. AllByRecursion (WellFormedAnnotation tokens) annotations.now) }
    ensures found { option_copied result ≡ find (is_id text.now) annotations.entry.now }
    ensures is_well_formed { IfSome result (λ id. IsBuiltFrom text.now (λ tokens. WellFormedAnnotation tokens id.now)) }
{
    for annotation in annotations {
        if spelling(text, annotation.key) == "id" {
            return Some(annotation);
        }
    }
    None
}

/// Returns whether a policy is named by an `@id` rather than by its index.
pub(crate) fn has_id(text: &str, tree: &PolicyTree) -> bool
    requires { IsBuiltFrom text.now (λ tokens. WellFormedPolicy tokens tree.now) }
    ensures { result ≡ has_id text.now tree.now }
{
    id_of(text, tree.annotations.as_slice()).is_some()
}

/// Returns the value of an annotation, or the empty string if the annotation has no string.
fn value_of(alloc: Global, text: &str, annotation: &Annotation) -> Result<Text, NoMemory>
    requires { IsBuiltFrom text.now (λ tokens. WellFormedAnnotation tokens annotation.now) }
    ensures { IfOk result (IsValueOf text.now annotation.now.value) }
{
    match annotation.value {
        Some(token) => decode_string(alloc, text, token),
        None => Ok(Text::from_string(String::new(alloc))),
    }
}

/// Returns the name of a policy by its index: `policy` and the index in decimal. Allocates once.
fn index_name(alloc: Global, place: usize) -> Result<Text, NoMemory>
    ensures { IfOk result (λ name. name ≡ codes "policy" ++ decimal place) }
{
    let mut digits = Buffer::new();
    let mut name = String::with_capacity(alloc, MOST_PLACED_BYTES)?;
    name.push_str("policy")?;
    name.push_str(digits.format(place))?;
    Ok(Text::from_string(name))
}

/// Returns the name of the policy at this index of its file.
fn name_of(alloc: Global, text: &str, place: usize, tree: &PolicyTree) -> Result<Text, NoMemory>
    requires { IsBuiltFrom text.now (λ tokens. WellFormedPolicy tokens tree.now) }
    ensures { IfOk result (IsNameOf text.now place tree.now) }
{
    match id_of(text, tree.annotations.as_slice()) {
        Some(id) => value_of(alloc, text, id),
        None => index_name(alloc, place),
    }
}

/// Returns the names of a file's policies, in order.
pub(crate) fn names_of(
    alloc: Global,
    text: &str,
    trees: &[PolicyTree],
) -> Result<Vec<Text>, NoMemory>
    requires { IsBuiltFrom text.now (λ tokens. AllByRecursion (WellFormedPolicy tokens) trees.now) }
    ensures { IfOk result (λ names. AreNamesOf text.now trees.now names.items) }
{
    let mut names = Vec::with_capacity(alloc, trees.len())?;
    for (place, tree) in trees.iter().enumerate() {
        let name = name_of(alloc, text, place, tree)?;
        names.push(name)?;
    }
    Ok(names)
}

/// Returns the last policy of `named`, if there is one.
fn last_policy(named: &[(String, Policy)]) -> Option<&Policy> {
    match named {
        [.., (_, policy)] => Some(policy),
        [] => None,
    }
}

/// Returns the policies of a file's trees, each with its name, or `NoMemory`. Each policy shares its condition and
/// strings of its scope with the previous policy, as `core_like` describes.
///
/// Each tree is dropped before the next policy is built, so that the allocator can reuse the tree's memory for that
/// policy.
pub(crate) fn named_of(
    alloc: Global,
    text: &str,
    names: Vec<Text>,
    trees: Vec<PolicyTree>,
) -> Result<Vec<(String, Policy)>, NoMemory>
    requires same { length names.items ≡ length trees.items }
    requires is_well_formed { IsBuiltFrom text.now (λ tokens. AllByRecursion (WellFormedPolicy tokens) trees.items) }
    requires sound { AllByRecursion (λ tree. condition_faults text.now tree.conditions ≡ []) trees.items }
    ensures names { IfOk result (λ named. map (λ p. string_bytes p.0) named.items ≡ names.items) }
    ensures cores { IfOk result (λ named. AreCoresOf text.now trees.items (map (λ p. p.1) named.items)) }
{
    let mut named = Vec::with_capacity(alloc, trees.len())?;
    let mut rest = VecDeque::from_vec(names);
    for tree in trees {
        let made = core_like(alloc, text, &tree, last_policy(&named));
        let policy = after(tree, made)?;
        let Some(name) = rest.pop_front() else {
            unreachable!();
        };
        named.push((name.into_string(), policy))?;
    }
    Ok(named)
}
