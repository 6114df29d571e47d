//! The operators whose result is decided by literals, before any operand is typed: `==` between two literals, and `in`
//! between an action's literal and entity literals. The variable `action` counts as the literal of the environment's
//! action.
ghost use Rattle.std.specs.Prelude.{◌≡◌, ◌↔◌, ◌⊎◌, List, IsTrue, MatchOption, Contains};
ghost use Rattle.std.specs.Bool.{Decides};
ghost use Rattle.grammar_core.specs.declared.leaf.Literal.{Literal};
ghost use Rattle.grammar_core.specs.declared.leaf.Literal.TheVariants as literal;
ghost use Rattle.grammar_core.specs.declared.operator.Binary.TheVariants as binary;
ghost use Rattle.values.specs.declared.entity_uid.EntityUid.{EntityUid};
ghost use Rattle.typing.specs.Literals.{IsLiteral, AreEntityLiterals, ListsEntities, IsActionIn};
ghost use Rattle.typing.specs.Literals.{DecidedByLiterals, UndecidedByLiterals};
ghost use Rattle.type_checker.specs.Views.{typing_environment};
ghost use Rattle.type_checker.specs.inner.Literals.{literal_of};

use crate::environment::TypingEnvironment;
use grammar_core::{Binary, Expr, Literal, Variable};
use plain::Text;
use values::EntityUid;

/// A borrowed literal: one that an expression has, or the uid of the environment's action, for the variable `action`.
#[derive(Clone, Copy)]
pub(crate) enum LiteralRef<'a> {
    Boolean(bool),
    Long(i64),
    Text(&'a Text),
    Entity(&'a EntityUid),
}

/// Returns the literal as a borrowed one.
fn lend<'a>(literal: &'a Literal) -> LiteralRef<'a>
    ensures { literal_of result ≡ literal.now }
{
    match literal {
        Literal::Boolean(truth) => LiteralRef::Boolean(*truth),
        Literal::Long(number) => LiteralRef::Long(*number),
        Literal::Text(content) => LiteralRef::Text(content),
        Literal::Entity(uid) => LiteralRef::Entity(uid),
    }
}

/// Returns whether two borrowed literals are equal.
fn same_literal(one: LiteralRef<'_>, other: LiteralRef<'_>) -> bool
    ensures { Decides result (literal_of one.entry ≡ literal_of other.entry) }
{
    match (one, other) {
        (LiteralRef::Boolean(a), LiteralRef::Boolean(b)) => a == b,
        (LiteralRef::Long(a), LiteralRef::Long(b)) => a == b,
        (LiteralRef::Text(a), LiteralRef::Text(b)) => a.same(b),
        (LiteralRef::Entity(a), LiteralRef::Entity(b)) => a.same(b),
        _ => false,
    }
}

/// Returns the literal that an expression is, or `None`; the variable `action` counts as the uid of the environment's
/// action.
fn as_literal<'a>(env: TypingEnvironment<'a>, expr: &'a Expr) -> Option<LiteralRef<'a>>
    ensures { MatchOption result ((l : Literal) → ¬ IsLiteral (typing_environment env.entry) expr.now l)
        (λ b. IsLiteral (typing_environment env.entry) expr.now (literal_of b)) }
{
    match expr {
        Expr::Literal(literal) => Some(lend(literal)),
        Expr::Variable(variable) => match variable {
            Variable::Action => Some(LiteralRef::Entity(env.action())),
            Variable::Principal | Variable::Resource | Variable::Context => None,
        },
        _ => None,
    }
}

/// Returns the entity of an entity literal or of the variable `action`, or `None` for another expression.
fn as_entity<'a>(env: TypingEnvironment<'a>, expr: &'a Expr) -> Option<&'a EntityUid>
    ensures { MatchOption result
        ((u : EntityUid) → ¬ IsLiteral (typing_environment env.entry) expr.now (literal.Entity u))
        (λ u. IsLiteral (typing_environment env.entry) expr.now (literal.Entity u.now)) }
{
    match as_literal(env, expr) {
        Some(LiteralRef::Entity(uid)) => Some(uid),
        Some(LiteralRef::Boolean(_) | LiteralRef::Long(_) | LiteralRef::Text(_)) => None,
        None => None,
    }
}

/// Returns the result of `==` if both sides are literals, else `None`.
fn equal_decided_by_literals<'a>(
    env: TypingEnvironment<'a>,
    left: &'a Expr,
    right: &'a Expr,
) -> Option<bool>
    ensures { MatchOption result (UndecidedByLiterals (typing_environment env.entry) binary.Equal left.now right.now)
        (λ r. DecidedByLiterals (typing_environment env.entry) binary.Equal left.now right.now r) }
{
    let one = match as_literal(env, left) {
        Some(one) => one,
        None => return None,
    };
    match as_literal(env, right) {
        Some(other) => Some(same_literal(one, other)),
        None => None,
    }
}

/// Returns whether `action` is `other` or, by the schema, a descendant of `other`.
fn is_action_in(env: TypingEnvironment<'_>, action: &EntityUid, other: &EntityUid) -> bool
    ensures { Decides result (IsActionIn (typing_environment env.entry) action.now other.now) }
{
    action.same(other) || env.is_action_ancestor(action, other)
}

/// Returns whether at least one of the two is true.
fn either(one: bool, other: bool) -> bool
    ensures { IsTrue result ↔ (IsTrue one ⊎ IsTrue other) }
{
    one || other
}

/// Returns whether `action` is in one of `members`, or `None` unless all of them are entity literals.
fn in_some<'a>(env: TypingEnvironment<'a>, action: &EntityUid, members: &'a [Expr]) -> Option<bool>
    ensures { let E = typing_environment env.entry in
        MatchOption result ((us : List EntityUid) → ¬ AreEntityLiterals E members.now us)
        (λ r. (us : List EntityUid) × AreEntityLiterals E members.now us
        × Decides r ((v : EntityUid) × Contains us v × IsActionIn E action.now v)) }
{
    let mut found = false;
    for member in members {
        let uid = match as_entity(env, member) {
            Some(uid) => uid,
            None => return None,
        };
        let is_in = is_action_in(env, action, uid);
        found = either(found, is_in);
    }
    Some(found)
}

/// Returns whether `action` is in one of the entities that `listed` lists, or `None` if `listed` is neither an entity
/// literal nor a non-empty set of entity literals.
fn in_listed<'a>(env: TypingEnvironment<'a>, action: &EntityUid, listed: &'a Expr) -> Option<bool>
    ensures { let E = typing_environment env.entry in
        MatchOption result ((us : List EntityUid) → ¬ ListsEntities E listed.now us)
        (λ r. (us : List EntityUid) × ListsEntities E listed.now us
        × Decides r ((v : EntityUid) × Contains us v × IsActionIn E action.now v)) }
{
    if let Some(uid) = as_entity(env, listed) {
        return Some(is_action_in(env, action, uid));
    }
    match listed {
        Expr::Set(members) => {
            if members.is_empty() {
                return None;
            }
            match in_some(env, action, members.as_slice()) {
                Some(found) => Some(found),
                None => None,
            }
        }
        _ => None,
    }
}

/// Returns the result of `in` if the left side is an action's literal and the right side lists entity literals, else
/// `None`.
fn in_decided_by_literals<'a>(
    env: TypingEnvironment<'a>,
    left: &'a Expr,
    right: &'a Expr,
) -> Option<bool>
    ensures { MatchOption result (UndecidedByLiterals (typing_environment env.entry) binary.In left.now right.now)
        (λ r. DecidedByLiterals (typing_environment env.entry) binary.In left.now right.now r) }
{
    let action = match as_entity(env, left) {
        Some(action) => action,
        None => return None,
    };
    if !env.is_action_type(&action.type_name) {
        return None;
    }
    match in_listed(env, action, right) {
        Some(found) => Some(found),
        None => None,
    }
}

/// Returns the result of an operator if literals decide it, else `None`. Types no operand.
pub(crate) fn decided_by_literals<'a>(
    env: TypingEnvironment<'a>,
    operator: Binary,
    left: &'a Expr,
    right: &'a Expr,
) -> Option<bool>
    ensures { MatchOption result (UndecidedByLiterals (typing_environment env.entry) operator left.now right.now)
        (λ r. DecidedByLiterals (typing_environment env.entry) operator left.now right.now r) }
{
    match operator {
        Binary::Equal => equal_decided_by_literals(env, left, right),
        Binary::In => in_decided_by_literals(env, left, right),
        Binary::Less
        | Binary::LessOrEqual
        | Binary::Add
        | Binary::Subtract
        | Binary::Multiply
        | Binary::Contains
        | Binary::ContainsAll
        | Binary::ContainsAny => None,
    }
}
