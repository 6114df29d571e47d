//! Parsers of whole lists of tokens: policies and uids.

ghost use Rattle.std.specs.Prelude.{IfOk};
ghost use Rattle.std.specs.List.{AllByRecursion};
ghost use Rattle.grammar_parsing.specs.Expressions.{nesting_limit};
ghost use Rattle.grammar_syntax.specs.Lang.{at_any};
ghost use Rattle.grammar_syntax.specs.ParseResults.{Reads, ReadsWithin, with_items};
ghost use Rattle.grammar_parsing.specs.Grammar as grammar;
ghost use Rattle.grammar_parsing.specs.WellFormed.{WellFormedPolicy, WellFormedUid};

use crate::policy::{policies, policy};
use crate::tree::PolicyTree;
use grammar_syntax::{Cursor, SyntaxFault, Token, UidTree, read_to_end, uid};
use std::alloc::Global;

/// Parses a list of tokens as a policy.
///
/// # Errors
///
/// - `Unexpected` (11), `Slot` (16) or `TooDeep` (17): a token cannot follow those before it in a policy, or the tokens
///   end too early. The error has the index of the first such token, or the number of tokens.
/// - `NoMemory` (1): an allocation failed; possible at any point.
pub fn read_policy(alloc: Global, tokens: &[Token]) -> Result<PolicyTree, SyntaxFault>
    ensures reads { ReadsWithin (grammar.policy nesting_limit) (at_any grammar.policy) tokens.now result }
    ensures is_well_formed { IfOk result (WellFormedPolicy tokens.now) }
{
    let mut cursor = Cursor { rest: tokens };
    let read = policy(alloc, &mut cursor);
    read_to_end(tokens, &cursor, read)
}

/// Parses a list of tokens as any number of policies.
///
/// Takes time and memory proportional to the number of tokens.
///
/// # Errors
///
/// - `Unexpected` (11), `Slot` (16) or `TooDeep` (17): a token cannot follow those before it in a list of policies, or
///   the tokens end too early. The error has the index of the first such token, or the number of tokens.
/// - `NoMemory` (1): an allocation failed; possible at any point.
pub fn read_policies(alloc: Global, tokens: &[Token]) -> Result<Vec<PolicyTree>, SyntaxFault>
    ensures reads { ReadsWithin (grammar.policies nesting_limit) (at_any grammar.policies)
        tokens.now (with_items result) }
    ensures is_well_formed { IfOk result (λ found. AllByRecursion (WellFormedPolicy tokens.now) found.items) }
{
    let mut cursor = Cursor { rest: tokens };
    let read = policies(alloc, &mut cursor);
    let trees = read_to_end(tokens, &cursor, read)?;
    let found = trees.into_vec();
    Ok(found)
}

/// Parses a list of tokens as a uid.
///
/// # Errors
///
/// - `Unexpected` (11) or `Slot` (16): a token cannot follow those before it in a uid, or the tokens end too early. The
///   error has the index of the first such token, or the number of tokens.
/// - `NoMemory` (1): an allocation failed; possible at any point.
pub fn read_uid(alloc: Global, tokens: &[Token]) -> Result<UidTree, SyntaxFault>
    ensures reads { Reads grammar.uid tokens.now result }
    ensures is_well_formed { IfOk result (WellFormedUid tokens.now) }
{
    let mut cursor = Cursor { rest: tokens };
    let read = uid(alloc, &mut cursor);
    read_to_end(tokens, &cursor, read)
}
