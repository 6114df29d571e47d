//! Parsers of a whole text into syntax trees: of a uid, of a policy, or of a file of policies.
ghost use Rattle.std.specs.Prelude.{◌≡◌, IfOk, IfErr, slice_get};
ghost use Rattle.std.specs.List.{AllByRecursion};
ghost use Rattle.grammar_parsing.specs.Expressions.{nesting_limit};
ghost use Rattle.grammar_desugaring.specs.grammar_syntax.Lang.{at_any};
ghost use Rattle.grammar_parsing.specs.Grammar as grammar;
ghost use Rattle.grammar_parsing.specs.WellFormed.{WellFormedUid, WellFormedPolicy};
ghost use Rattle.grammar_desugaring.specs.BuiltFrom.{IsBuiltFrom};
ghost use Rattle.policy_grammar.specs.declared.fault.ReadFault.TheVariants as ReadFault;
ghost use Rattle.plain.specs.AllocationErrors.{OrNoMemory};
ghost use Rattle.policy_grammar.specs.Texts.{most_policy_bytes, most_file_bytes, Derives, IsUnread, byte_of};
ghost use Rattle.policy_grammar.specs.inner.TreeParts.{LexedIn, IsUnlexed, refusal_of};

use crate::fault::ReadFault;
use grammar_desugaring::{Token, tokens};
use grammar_parsing::{PolicyTree, SyntaxFault, UidTree, read_policies, read_policy, read_uid};
use std::alloc::Global;

/// The greatest number of bytes of the text of a policy that is parsed alone, or of a uid.
pub const MOST_POLICY_BYTES: usize = 262_144;

/// The greatest number of bytes of a file of policies.
pub const MOST_FILE_BYTES: usize = 8_388_608;

/// The greatest number of bytes of a uid's text.
const MOST_UID_BYTES: usize = MOST_POLICY_BYTES;

/// Returns the tokens of a text of at most `most` bytes.
fn tokens_of(alloc: Global, text: &str, most: usize) -> Result<Vec<Token>, ReadFault>
    ensures ok { IfOk result (λ tokens. LexedIn most text.now tokens.items) }
    ensures err { IfErr result (OrNoMemory ReadFault.NoMemory (IsUnlexed most text.now)) }
{
    if text.len() > most {
        return Err(ReadFault::TooLong);
    }
    let found = tokens(alloc, text)?;
    Ok(found)
}

/// Returns the byte offset of the token at an index, or the text's length if there is no token at this index.
fn byte(text: &str, tokens: &[Token], place: usize) -> usize
    ensures { result ≡ byte_of text.now (slice_get tokens.now place) }
{
    match tokens.get(place) {
        Some(token) => token.start,
        None => text.len(),
    }
}

/// Returns an error with the byte offset of its token in place of the token's index.
fn refusal(text: &str, tokens: &[Token], fault: SyntaxFault) -> ReadFault
    ensures { result ≡ refusal_of text.now tokens.now fault }
{
    match fault {
        SyntaxFault::NoMemory => ReadFault::NoMemory,
        SyntaxFault::Unexpected(place) => ReadFault::Unexpected(byte(text, tokens, place)),
        SyntaxFault::Slot(place) => ReadFault::Slot(byte(text, tokens, place)),
        SyntaxFault::TooDeep(place) => ReadFault::TooDeep(byte(text, tokens, place)),
    }
}

/// Parses the tree of a uid.
///
/// # Errors
///
/// In this order:
///
/// - `TooLong` (18): over 262,144 bytes.
/// - `BadToken` (10): the first invalid token, anywhere in the text.
/// - `Unexpected` (11), `Slot` (16): the first token that cannot follow those before it in a uid, or the text's end.
/// - `NoMemory` (1): an allocation failed; possible at any point.
pub fn uid_tree(alloc: Global, text: &str) -> Result<UidTree, ReadFault>
    ensures derives { IfOk result (Derives grammar.uid most_policy_bytes text.now) }
    ensures is_well_formed { IfOk result (λ tree. IsBuiltFrom text.now (λ tokens. WellFormedUid tokens tree)) }
    ensures err { IfErr result
        (OrNoMemory ReadFault.NoMemory (IsUnread grammar.uid grammar.uid most_policy_bytes text.now)) }
{
    let tokens = tokens_of(alloc, text, MOST_UID_BYTES)?;
    match read_uid(alloc, &tokens) {
        Ok(tree) => Ok(tree),
        Err(fault) => Err(refusal(text, &tokens, fault)),
    }
}

/// Parses the tree of a policy.
///
/// # Errors
///
/// In this order:
///
/// - `TooLong` (18): over 262,144 bytes.
/// - `BadToken` (10): the first invalid token, anywhere in the text.
/// - `Unexpected` (11), `Slot` (16), `TooDeep` (17): the first token that cannot follow those before it in a policy, or
///   that would open level 65 of an expression, or the text's end.
/// - `NoMemory` (1): an allocation failed; possible at any point.
///
/// Source: Cedar reference guide 4.0, "Grammar specification for Cedar policy syntax".
pub fn policy_tree(alloc: Global, text: &str) -> Result<PolicyTree, ReadFault>
    ensures derives { IfOk result (Derives (grammar.policy nesting_limit) most_policy_bytes text.now) }
    ensures is_well_formed { IfOk result (λ tree. IsBuiltFrom text.now (λ tokens. WellFormedPolicy tokens tree)) }
    ensures err { IfErr result
        (OrNoMemory ReadFault.NoMemory
        (IsUnread (grammar.policy nesting_limit) (at_any grammar.policy) most_policy_bytes text.now)) }
{
    let tokens = tokens_of(alloc, text, MOST_POLICY_BYTES)?;
    match read_policy(alloc, &tokens) {
        Ok(tree) => Ok(tree),
        Err(fault) => Err(refusal(text, &tokens, fault)),
    }
}

/// Parses the trees of a file's policies.
///
/// # Errors
///
/// Those of [`policy_tree`], where `TooLong` (18) is for a file of over 8,388,608 bytes.
pub fn policy_trees(alloc: Global, text: &str) -> Result<Vec<PolicyTree>, ReadFault>
    ensures derives { IfOk result
        (λ trees. Derives (grammar.policies nesting_limit) most_file_bytes text.now trees.items) }
    ensures is_well_formed { IfOk result
        (λ trees. IsBuiltFrom text.now (λ tokens. AllByRecursion (WellFormedPolicy tokens) trees.items)) }
    ensures err { IfErr result
        (OrNoMemory ReadFault.NoMemory
        (IsUnread (grammar.policies nesting_limit) (at_any grammar.policies) most_file_bytes text.now)) }
{
    let tokens = tokens_of(alloc, text, MOST_FILE_BYTES)?;
    match read_policies(alloc, &tokens) {
        Ok(trees) => Ok(trees),
        Err(fault) => Err(refusal(text, &tokens, fault)),
    }
}
