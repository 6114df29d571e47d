//! Parsers of a whole text: a uid, a policy, or a file of policies.
ghost use Rattle.std.specs.Prelude.{IfOk, IfErr, map, string_bytes};
ghost use Rattle.std.specs.List.{AllByRecursion};
ghost use Rattle.grammar_parsing.specs.WellFormed.{WellFormedPolicy};
ghost use Rattle.policy_grammar.specs.declared.fault.ReadFault.TheVariants as ReadFault;
ghost use Rattle.policy_grammar.specs.CoreOf.{AreNamesOf};
ghost use Rattle.policy_grammar.specs.PolicyText.{IsUidText, IsPolicyOf, HasNoPolicy, ArePoliciesOf, HaveNoPolicies};
ghost use Rattle.policy_grammar.specs.PolicyText.{IsPolicyText, IsPolicyFile, IsUidRefused};
ghost use Rattle.plain.specs.AllocationErrors.{OrNoMemory};
ghost use Rattle.policy_grammar.specs.PolicyText.{IsPolicyRefused, IsFileRefused};
ghost use Rattle.grammar_desugaring.specs.BuiltFrom.{IsBuiltFrom};

use crate::core_of::{core_like, uid_of};
use crate::dropping::after;
use crate::fault::ReadFault;
use crate::limits::are_ids;
use crate::names::{named_of, names_of};
use crate::plain_uids::plain_uid;
use crate::policy::Policy;
use crate::repeats::repeated_name;
use crate::tree_check::{check_tree, check_trees};
use crate::trees::{policy_tree, policy_trees, uid_tree};
use grammar_desugaring::{earlier_of, least_fault_is_reported};
use grammar_parsing::PolicyTree;
use plain::{NoMemory, Text};
use std::alloc::Global;
use values::EntityUid;

/// Parses a uid through its tokens and their tree.
fn uid_by_tree(alloc: Global, text: &str) -> Result<EntityUid, ReadFault>
    ensures read { IfOk result (IsUidText text.now) }
    ensures refused { IfErr result (OrNoMemory ReadFault.NoMemory (IsUidRefused text.now)) }
{
    let tree = uid_tree(alloc, text)?;
    Ok(uid_of(alloc, text, &tree)?)
}

/// Parses a uid, such as `User::"alice"`. Whitespace and comments may be between its tokens.
///
/// # Errors
///
/// In this order:
///
/// - `TooLong` (18): over 262,144 bytes.
/// - `BadToken` (10): the first invalid token, anywhere in the text.
/// - `Unexpected` (11), `Slot` (16): the first token that cannot follow those before it in a uid, or the text's end.
/// - `NoMemory` (1): an allocation failed; possible at any point.
pub fn parse_uid(alloc: Global, text: &str) -> Result<EntityUid, ReadFault>
    ensures read { IfOk result (IsUidText text.now) }
    ensures refused { IfErr result (OrNoMemory ReadFault.NoMemory (IsUidRefused text.now)) }
{
    match plain_uid(alloc, text)? {
        Some(uid) => Ok(uid),
        None => uid_by_tree(alloc, text),
    }
}

/// Returns the policy of a tree, or the error of the tree, such as that the policy is over the limits.
fn policy_of(alloc: Global, text: &str, tree: &PolicyTree) -> Result<Policy, ReadFault>
    requires { IsBuiltFrom text.now (λ tokens. WellFormedPolicy tokens tree.now) }
    ensures read { IfOk result (IsPolicyOf text.now tree.now) }
    ensures refused { IfErr result (OrNoMemory ReadFault.NoMemory (HasNoPolicy text.now tree.now)) }
{
    least_fault_is_reported();
    let tree_check = check_tree(alloc, text, tree)?;
    if let Some(fault) = tree_check.fault {
        return Err(ReadFault::from(fault));
    }
    if !tree_check.small {
        return Err(ReadFault::TooDeep(0));
    }
    Ok(core_like(alloc, text, tree, None)?)
}

/// Parses a policy. Annotations are not part of the result, and the length of an `@id` is not checked.
///
/// # Errors
///
/// In this order, all except `NoMemory` before any part of the core expression is built:
///
/// - `TooLong` (18): over 262,144 bytes.
/// - `BadToken` (10): the first invalid token, anywhere in the text.
/// - `Unexpected` (11), `Slot` (16), `TooDeep` (17): the first token that cannot follow those before it in a policy, or
///   that would open level 65 of an expression, or the text's end.
/// - `RepeatedKey` (15) of an annotation or of a record, `NumberRange` (12), `UnknownCall` (13), `Arity` (14): the
///   error at the least offset.
/// - `TooDeep` (17) at offset 0: the core expression is higher than 1,000 or has over 1,000,000 nodes.
/// - `NoMemory` (1): an allocation failed; possible at any point.
///
/// Source: Cedar reference guide 4.0, "Grammar specification for Cedar policy syntax" and "Basic policy
/// construction".
pub fn parse_policy(alloc: Global, text: &str) -> Result<Policy, ReadFault>
    ensures read { IfOk result (IsPolicyText text.now) }
    ensures refused { IfErr result (OrNoMemory ReadFault.NoMemory (IsPolicyRefused text.now)) }
{
    let tree = policy_tree(alloc, text)?;
    let made = policy_of(alloc, text, &tree);
    after(tree, made)
}

/// Returns the policies of a file's trees, each with its name, or the error of the trees, such as that one policy is
/// over the limits.
fn policies_of(
    alloc: Global,
    text: &str,
    trees: Vec<PolicyTree>,
    names: Vec<Text>,
) -> Result<Vec<(String, Policy)>, ReadFault>
    requires named { AreNamesOf text.now trees.items names.items }
    requires is_well_formed { IsBuiltFrom text.now (λ tokens. AllByRecursion (WellFormedPolicy tokens) trees.items) }
    ensures read { IfOk result
        (λ named. ArePoliciesOf text.now trees.items
        (map (λ p. string_bytes p.0) named.items) (map (λ p. p.1) named.items)) }
    ensures refused { IfErr result (OrNoMemory ReadFault.NoMemory (HaveNoPolicies text.now trees.items names.items)) }
{
    least_fault_is_reported();
    let repeat = repeated_name(alloc, text, &names, &trees)?;
    let tree_check = check_trees(alloc, text, &trees)?;
    if let Some(fault) = earlier_of(repeat, tree_check.fault) {
        return Err(ReadFault::from(fault));
    }
    if !tree_check.small {
        return Err(ReadFault::TooDeep(0));
    }
    if !are_ids(&names) {
        return Err(ReadFault::BadId);
    }
    Ok(named_of(alloc, text, names, trees)?)
}

/// Parses a file of policies, each with its name: the value of its first `@id`, else `policyN` with its index in the
/// file, counted from 0.
///
/// # Errors
///
/// In this order, all except `NoMemory` before any part of a core expression is built:
///
/// - `TooLong` (18): over 8,388,608 bytes.
/// - `BadToken` (10): the first invalid token, anywhere in the file.
/// - `Unexpected` (11), `Slot` (16), `TooDeep` (17): the first token that cannot follow those before it in a file, or
///   that would open level 65 of an expression, or the text's end.
/// - `RepeatedKey` (15) of an annotation, of a record or of a policy's name, `NumberRange` (12), `UnknownCall` (13),
///   `Arity` (14): the error at the least offset of the whole file.
/// - `TooDeep` (17) at offset 0: the core expression of some policy is higher than 1,000 or has over 1,000,000 nodes.
/// - `BadId` (19): some name does not have 1 to 256 bytes.
/// - `NoMemory` (1): an allocation failed; possible at any point.
pub fn parse_policies(alloc: Global, text: &str) -> Result<Vec<(String, Policy)>, ReadFault>
    ensures read { IfOk result
        (λ named. IsPolicyFile text.now (map (λ p. string_bytes p.0) named.items) (map (λ p. p.1) named.items)) }
    ensures refused { IfErr result (OrNoMemory ReadFault.NoMemory (IsFileRefused text.now)) }
{
    let trees = policy_trees(alloc, text)?;
    let names = names_of(alloc, text, &trees)?;
    policies_of(alloc, text, trees, names)
}
