//! Parsers of annotations, conditions and policies.

ghost use Rattle.std.specs.Prelude.{◌≡◌, IfErr};
ghost use Rattle.grammar_syntax.specs.ParsesTo.{ParsesTo};
ghost use Rattle.grammar_syntax.specs.declared.fault.StopCause.TheVariants as halt;
ghost use Rattle.grammar_parsing.specs.Expressions.{nesting_limit};
ghost use Rattle.grammar_parsing.specs.inner.Parsing as spec;

use crate::expression::{NESTING_LIMIT, expr};
use crate::policy_sets::PolicySet;
use crate::scope::scope;
use crate::symbols::take_symbol;
use crate::tree::{Annotation, Condition, ConditionWord, PolicyTree, ScopeTree};
use grammar_syntax::{Cursor, StopCause, Token, TokenKind, read_many};
use plain::{Items, pair_with};
use std::alloc::Global;

/// Parses [ String ].
#[tactic(auto, unfolding(crate::specs::inner::Parsing::maybe_text))]
fn maybe_text(tokens: &mut Cursor<'_>) -> Result<Option<Token>, StopCause>
    ensures reads { ParsesTo (spec.maybe_text tokens.old.rest.now) result tokens.new.rest.now }
    ensures only { IfErr result (λ why. why ≡ halt.Unexpected) }
{
    if !tokens.sees(TokenKind::Text) {
        return Ok(None);
    }
    let text = tokens.take(TokenKind::Text)?;
    Ok(Some(text))
}

/// Parses "(" [ String ] ")" if "(" comes next, and returns the string, if there is one.
#[tactic(auto, unfolding(crate::specs::inner::Parsing::maybe_value, crate::specs::inner::Parsing::annotation_value))]
fn maybe_value(tokens: &mut Cursor<'_>) -> Result<Option<Token>, StopCause>
    ensures reads { ParsesTo (spec.maybe_value tokens.old.rest.now) result tokens.new.rest.now }
    ensures only { IfErr result (λ why. why ≡ halt.Unexpected) }
{
    if !tokens.sees(TokenKind::LParen) {
        return Ok(None);
    }
    tokens.take(TokenKind::LParen)?;
    let text = maybe_text(tokens)?;
    tokens.take(TokenKind::RParen)?;
    Ok(text)
}

/// Parses "@" (Ident | Reserved) [ "(" [ String ] ")" ].
#[tactic(auto, unfolding(crate::specs::inner::Parsing::annotation))]
fn annotation(tokens: &mut Cursor<'_>) -> Result<Annotation, StopCause>
    ensures reads { ParsesTo (spec.annotation tokens.old.rest.now) result tokens.new.rest.now }
    ensures only { IfErr result (λ why. why ≡ halt.Unexpected) }
{
    let at = tokens.take(TokenKind::At)?;
    let key = tokens.take_one_of(PolicySet::Words)?;
    let value = maybe_value(tokens)?;
    Ok(Annotation { at, key, value })
}

/// Parses { Annotation }.
#[tactic(auto, unfolding(crate::specs::inner::Parsing::annotations))]
fn annotations(alloc: Global, tokens: &mut Cursor<'_>) -> Result<Items<Annotation>, StopCause>
    ensures { ParsesTo (spec.annotations tokens.old.rest.now) result tokens.new.rest.now }
{
    read_many(alloc, tokens, TokenKind::At, annotation)
}

/// Parses ("when" | "unless") "{" Expr "}".
#[tactic(auto, unfolding(crate::specs::inner::Parsing::condition))]
fn condition(alloc: Global, tokens: &mut Cursor<'_>) -> Result<Condition, StopCause>
    ensures { ParsesTo (spec.condition nesting_limit tokens.old.rest.now) result tokens.new.rest.now }
{
    let word = take_symbol::<ConditionWord>(tokens)?;
    tokens.take(TokenKind::LBrace)?;
    let expression = expr(alloc, tokens, NESTING_LIMIT)?;
    let (expression, _closed) = pair_with(expression, tokens.take(TokenKind::RBrace))?;
    Ok(Condition { word, expression })
}

/// Parses { Condition }.
#[tactic(auto, unfolding(crate::specs::inner::Parsing::conditions))]
fn conditions(alloc: Global, tokens: &mut Cursor<'_>) -> Result<Items<Condition>, StopCause>
    ensures { ParsesTo (spec.conditions nesting_limit tokens.old.rest.now) result tokens.new.rest.now }
{
    read_many(alloc, tokens, PolicySet::ConditionWords, |tokens| {
        condition(alloc, tokens)
    })
}

/// Parses ")" { Condition } ";".
#[tactic(auto, unfolding(crate::specs::inner::Parsing::scope_tail))]
fn scope_tail(alloc: Global, tokens: &mut Cursor<'_>) -> Result<Items<Condition>, StopCause>
    ensures { ParsesTo (spec.scope_tail nesting_limit tokens.old.rest.now) result tokens.new.rest.now }
{
    tokens.take(TokenKind::RParen)?;
    let conditions = conditions(alloc, tokens)?;
    let (conditions, _ended) = pair_with(conditions, tokens.take(TokenKind::Semicolon))?;
    Ok(conditions)
}

/// Parses the rest of a policy after its scope, and returns the policy.
#[tactic(auto, using(crate::proofs::ScopeTail::tail_then))]
fn policy_of(
    alloc: Global,
    tokens: &mut Cursor<'_>,
    annotations: Items<Annotation>,
    effect: Token,
    found: ScopeTree,
) -> Result<PolicyTree, StopCause>
    ensures { ParsesTo (spec.policy_of nesting_limit annotations effect found tokens.old.rest.now)
        result tokens.new.rest.now }
{
    let ((annotations, found), conditions) = pair_with(
        (annotations, found),
        scope_tail(alloc, tokens),
    )?;
    Ok(PolicyTree {
        annotations,
        effect,
        principal: found.principal,
        action: found.action,
        resource: found.resource,
        conditions,
    })
}

/// Parses { Annotation } Effect "(" Scope ")" { Condition } ";".
#[tactic(auto, unfolding(crate::specs::inner::Parsing::policy))]
pub(crate) fn policy(alloc: Global, tokens: &mut Cursor<'_>) -> Result<PolicyTree, StopCause>
    ensures { ParsesTo (spec.policy nesting_limit tokens.old.rest.now) result tokens.new.rest.now }
{
    let annotations = annotations(alloc, tokens)?;
    let effect = tokens.take_one_of(PolicySet::Effects)?;
    tokens.take(TokenKind::LParen)?;
    let found = scope(alloc, tokens)?;
    policy_of(alloc, tokens, annotations, effect, found)
}

/// Parses { Policy }.
#[tactic(auto, unfolding(crate::specs::inner::Parsing::policies))]
pub(crate) fn policies(
    alloc: Global,
    tokens: &mut Cursor<'_>,
) -> Result<Items<PolicyTree>, StopCause>
    ensures { ParsesTo (spec.policies nesting_limit tokens.old.rest.now) result tokens.new.rest.now }
{
    read_many(alloc, tokens, PolicySet::PolicyStarts, |tokens| {
        policy(alloc, tokens)
    })
}
