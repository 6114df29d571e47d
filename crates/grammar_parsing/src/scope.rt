//! Parsers of the parts of a scope.

ghost use Rattle.grammar_syntax.specs.ParsesTo.{ParsesTo};
ghost use Rattle.grammar_parsing.specs.inner.Parsing as spec;

use crate::tree::{ActionTree, PartTree, ScopeTree};
use grammar_syntax::{Cursor, NameSet, StopCause, TokenKind, UidTree, path, read_more, uid};
use plain::{Items, pair_with};
use std::alloc::Global;

/// Parses "==" Uid.
#[tactic(auto, unfolding(crate::specs::inner::Parsing::equal_uid))]
fn equal_uid(alloc: Global, tokens: &mut Cursor<'_>) -> Result<UidTree, StopCause>
    ensures { ParsesTo (spec.equal_uid tokens.old.rest.now) result tokens.new.rest.now }
{
    tokens.take(TokenKind::Equal)?;
    uid(alloc, tokens)
}

/// Parses "in" Uid.
#[tactic(auto, unfolding(crate::specs::inner::Parsing::in_uid))]
fn in_uid(alloc: Global, tokens: &mut Cursor<'_>) -> Result<UidTree, StopCause>
    ensures { ParsesTo (spec.in_uid tokens.old.rest.now) result tokens.new.rest.now }
{
    tokens.take(TokenKind::In)?;
    uid(alloc, tokens)
}

/// Parses "is" Path [ "in" Uid ].
#[tactic(auto, unfolding(crate::specs::inner::Parsing::type_test))]
fn type_test(alloc: Global, tokens: &mut Cursor<'_>) -> Result<PartTree, StopCause>
    ensures { ParsesTo (spec.type_test tokens.old.rest.now) result tokens.new.rest.now }
{
    tokens.take(TokenKind::Is)?;
    let type_name = path(alloc, tokens)?;
    if !tokens.sees(TokenKind::In) {
        return Ok(PartTree::Is(type_name));
    }
    let entity = in_uid(alloc, tokens)?;
    Ok(PartTree::IsIn(type_name, entity))
}

/// Parses [ "==" Uid | "in" Uid | "is" Path [ "in" Uid ] ].
#[tactic(auto, unfolding(crate::specs::inner::Parsing::entity_constraint))]
fn entity_constraint(alloc: Global, tokens: &mut Cursor<'_>) -> Result<PartTree, StopCause>
    ensures { ParsesTo (spec.entity_constraint tokens.old.rest.now) result tokens.new.rest.now }
{
    if tokens.sees(TokenKind::Equal) {
        let entity = equal_uid(alloc, tokens)?;
        return Ok(PartTree::Equal(entity));
    }
    if tokens.sees(TokenKind::In) {
        let entity = in_uid(alloc, tokens)?;
        return Ok(PartTree::In(entity));
    }
    if tokens.sees(TokenKind::Is) {
        return type_test(alloc, tokens);
    }
    Ok(PartTree::Any)
}

/// Parses a token of the kind `variable` and a constraint: a Principal or a Resource.
#[tactic(auto, unfolding(crate::specs::inner::Parsing::entity_part))]
fn entity_part(
    alloc: Global,
    tokens: &mut Cursor<'_>,
    variable: TokenKind,
) -> Result<PartTree, StopCause>
    ensures { ParsesTo (spec.entity_part variable tokens.old.rest.now) result tokens.new.rest.now }
{
    tokens.take(variable)?;
    entity_constraint(alloc, tokens)
}

/// Parses "," Uid.
#[tactic(auto, unfolding(crate::specs::inner::Parsing::comma_uid))]
fn comma_uid(alloc: Global, tokens: &mut Cursor<'_>) -> Result<UidTree, StopCause>
    ensures { ParsesTo (spec.comma_uid tokens.old.rest.now) result tokens.new.rest.now }
{
    tokens.take(TokenKind::Comma)?;
    uid(alloc, tokens)
}

/// Parses { "," Uid }, after the Uid `first`.
fn rest_of_uids(
    alloc: Global,
    tokens: &mut Cursor<'_>,
    first: UidTree,
) -> Result<Items<UidTree>, StopCause>
    ensures { ParsesTo (spec.rest_of_uids first tokens.old.rest.now) result tokens.new.rest.now }
{
    read_more(alloc, tokens, first, TokenKind::Comma, |tokens| {
        comma_uid(alloc, tokens)
    })
}

/// Parses [ Uid { "," Uid } ].
#[tactic(auto, unfolding(crate::specs::inner::Parsing::uids))]
fn uids(alloc: Global, tokens: &mut Cursor<'_>) -> Result<Items<UidTree>, StopCause>
    ensures { ParsesTo (spec.uids tokens.old.rest.now) result tokens.new.rest.now }
{
    if !tokens.sees_one_of(NameSet::Identifiers) {
        return Ok(Items::new(alloc));
    }
    let first = uid(alloc, tokens)?;
    rest_of_uids(alloc, tokens, first)
}

/// Parses "[" [ Uid { "," Uid } ] "]".
#[tactic(auto, unfolding(crate::specs::inner::Parsing::uid_list))]
fn uid_list(alloc: Global, tokens: &mut Cursor<'_>) -> Result<ActionTree, StopCause>
    ensures { ParsesTo (spec.uid_list tokens.old.rest.now) result tokens.new.rest.now }
{
    tokens.take(TokenKind::LBracket)?;
    let found = uids(alloc, tokens)?;
    tokens.take(TokenKind::RBracket)?;
    Ok(ActionTree::InList(found))
}

/// Parses "[" [ Uid { "," Uid } ] "]" | Uid.
#[tactic(auto, unfolding(crate::specs::inner::Parsing::list_or_uid))]
fn list_or_uid(alloc: Global, tokens: &mut Cursor<'_>) -> Result<ActionTree, StopCause>
    ensures { ParsesTo (spec.list_or_uid tokens.old.rest.now) result tokens.new.rest.now }
{
    if tokens.sees(TokenKind::LBracket) {
        return uid_list(alloc, tokens);
    }
    let entity = uid(alloc, tokens)?;
    Ok(ActionTree::In(entity))
}

/// Parses "in" ( "[" [ Uid { "," Uid } ] "]" | Uid ).
#[tactic(auto, unfolding(crate::specs::inner::Parsing::in_actions))]
fn in_actions(alloc: Global, tokens: &mut Cursor<'_>) -> Result<ActionTree, StopCause>
    ensures { ParsesTo (spec.in_actions tokens.old.rest.now) result tokens.new.rest.now }
{
    tokens.take(TokenKind::In)?;
    list_or_uid(alloc, tokens)
}

/// Parses [ "==" Uid | "in" Uid | "in" "[" [ Uid { "," Uid } ] "]" ].
#[tactic(auto, unfolding(crate::specs::inner::Parsing::action_constraint))]
fn action_constraint(alloc: Global, tokens: &mut Cursor<'_>) -> Result<ActionTree, StopCause>
    ensures { ParsesTo (spec.action_constraint tokens.old.rest.now) result tokens.new.rest.now }
{
    if tokens.sees(TokenKind::Equal) {
        let entity = equal_uid(alloc, tokens)?;
        return Ok(ActionTree::Equal(entity));
    }
    if tokens.sees(TokenKind::In) {
        return in_actions(alloc, tokens);
    }
    Ok(ActionTree::Any)
}

/// Parses "action" and its constraint.
#[tactic(auto, unfolding(crate::specs::inner::Parsing::action_part))]
fn action_part(alloc: Global, tokens: &mut Cursor<'_>) -> Result<ActionTree, StopCause>
    ensures { ParsesTo (spec.action_part tokens.old.rest.now) result tokens.new.rest.now }
{
    tokens.take(TokenKind::Action)?;
    action_constraint(alloc, tokens)
}

/// Parses Principal "," Action "," Resource.
#[tactic(auto, unfolding(crate::specs::inner::Parsing::scope))]
pub(crate) fn scope(alloc: Global, tokens: &mut Cursor<'_>) -> Result<ScopeTree, StopCause>
    ensures { ParsesTo (spec.scope tokens.old.rest.now) result tokens.new.rest.now }
{
    let principal = entity_part(alloc, tokens, TokenKind::Principal)?;
    let (principal, _comma) = pair_with(principal, tokens.take(TokenKind::Comma))?;
    let (principal, action) = pair_with(principal, action_part(alloc, tokens))?;
    let (parts, _comma) = pair_with((principal, action), tokens.take(TokenKind::Comma))?;
    let ((principal, action), resource) = pair_with(
        parts,
        entity_part(alloc, tokens, TokenKind::Resource),
    )?;
    Ok(ScopeTree {
        principal,
        action,
        resource,
    })
}
