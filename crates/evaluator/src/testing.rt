//! Evaluates conditions to a `bool`, and operands of `<` and `<=` to an `i64`. No value is built for the result of
//! `if`, `&&`, `||`, `!`, `has`, `<` or `<=` as a condition, since only its boolean would be used.
ghost use Rattle.evaluator.specs.inner.Computing.{decided_entities, Answers, meaning, and_then, as_test, field_of};
ghost use Rattle.evaluator.specs.inner.Computing.{has_field, apply_binary, AnswersNumber, AnswersNumbers};

use crate::choosing::{both_test, choice_test, either_test};
use crate::eval_env::EvalEnv;
use crate::evaluating::{field_of, outcome_of, two_operands};
use crate::fault::EvalFault;
use crate::fields::{variable_has, variable_number};
use crate::numbers::{Numbers, is_less, is_less_or_equal, literal_number, number_in};
use crate::steps::{has_as_bool, tested};
use grammar_core::{Binary, Expr, Unary};
use std::alloc::Global;

/// Evaluates an expression as a condition, to a `bool`; `TypeError` if its value is not a boolean.
#[cycle(evaluate)]
#[inline(never)]
pub(crate) fn test_of<'a, L: EvalEnv>(
    alloc: Global,
    test: &'a Expr,
    env: &'a L,
) -> Result<bool, EvalFault>
    ensures { Answers result (as_test
        (meaning (L.request_of env.now) (decided_entities (L.stored env.now) (L.ancestor_test env.now)) test.now)) }
{
    match test {
        Expr::Has(owner, name) => has_test(alloc, owner, name.as_str(), env),
        Expr::If(test, consequent, alternative) => {
            choice_test(alloc, test, consequent, alternative, env)
        }
        Expr::And(left, right) => both_test(alloc, left, right, env),
        Expr::Or(left, right) => either_test(alloc, left, right, env),
        Expr::Unary(Unary::Not, operand) => Ok(!test_of(alloc, operand, env)?),
        Expr::Binary(operator, left, right) => { binary_test(alloc, *operator, left, right, env) }
        other => {
            let given = outcome_of(alloc, other, env);
            tested(&given)
        }
    }
}

/// Evaluates an operator on two expressions as a condition, to a `bool`.
#[cycle(evaluate)]
#[inline(never)]
fn binary_test<'a, L: EvalEnv>(
    alloc: Global,
    operator: Binary,
    left: &'a Expr,
    right: &'a Expr,
    env: &'a L,
) -> Result<bool, EvalFault>
    ensures { let world = decided_entities (L.stored env.now) (L.ancestor_test env.now) in
        Answers result (as_test (and_then (meaning (L.request_of env.now) world left.now)
        (λ v. and_then (meaning (L.request_of env.now) world right.now) (apply_binary world operator v)))) }
{
    match operator {
        Binary::Less => is_less(two_numbers(alloc, left, right, env)),
        Binary::LessOrEqual => is_less_or_equal(two_numbers(alloc, left, right, env)),
        _ => {
            let given = two_operands(alloc, operator, left, right, env);
            tested(&given)
        }
    }
}

/// Returns whether the value of an expression has a field or an attribute.
#[cycle(evaluate)]
#[inline(never)]
fn has_test<'a, L: EvalEnv>(
    alloc: Global,
    owner: &'a Expr,
    name: &str,
    env: &'a L,
) -> Result<bool, EvalFault>
    ensures { Answers result (as_test (and_then
        (meaning (L.request_of env.now) (decided_entities (L.stored env.now) (L.ancestor_test env.now)) owner.now)
        (has_field (decided_entities (L.stored env.now) (L.ancestor_test env.now)) name.now))) }
{
    match owner {
        Expr::Variable(variable) => { Ok(variable_has(env, *variable, name)) }
        other => {
            let given = outcome_of(alloc, other, env);
            has_as_bool(env, &given, name)
        }
    }
}

/// Returns the integers in the values of two expressions; `None` for a value of another kind.
#[cycle(evaluate)]
#[inline(never)]
fn two_numbers<'a, L: EvalEnv>(
    alloc: Global,
    left: &'a Expr,
    right: &'a Expr,
    env: &'a L,
) -> Result<Numbers, EvalFault>
    ensures { let gives = meaning (L.request_of env.now)
        (decided_entities (L.stored env.now) (L.ancestor_test env.now)) in
        AnswersNumbers result (gives left.now) (gives right.now) }
{
    let first = number_of(alloc, left, env)?;
    let second = number_of(alloc, right, env)?;
    Ok(Numbers { first, second })
}

/// Returns the integer in the value of an expression, or `None` if the value is of another kind.
#[cycle(evaluate)]
#[inline(never)]
fn number_of<'a, L: EvalEnv>(
    alloc: Global,
    expr: &'a Expr,
    env: &'a L,
) -> Result<Option<i64>, EvalFault>
    ensures { AnswersNumber result
        (meaning (L.request_of env.now) (decided_entities (L.stored env.now) (L.ancestor_test env.now)) expr.now) }
{
    match expr {
        Expr::Literal(literal) => Ok(literal_number(literal)),
        Expr::Field(owner, name) => field_number(alloc, owner, name.as_str(), env),
        other => {
            let given = outcome_of(alloc, other, env);
            number_in(&given)
        }
    }
}

/// Returns the integer in a field or an attribute of an expression's value, or `None` if the field or attribute has a
/// value of another kind.
#[cycle(evaluate)]
#[inline(never)]
fn field_number<'a, L: EvalEnv>(
    alloc: Global,
    owner: &'a Expr,
    name: &str,
    env: &'a L,
) -> Result<Option<i64>, EvalFault>
    ensures { AnswersNumber result (and_then
        (meaning (L.request_of env.now) (decided_entities (L.stored env.now) (L.ancestor_test env.now)) owner.now)
        (field_of (decided_entities (L.stored env.now) (L.ancestor_test env.now)) name.now)) }
{
    match owner {
        Expr::Variable(variable) => variable_number(env, *variable, name),
        _ => {
            let given = field_of(alloc, owner, name, env);
            number_in(&given)
        }
    }
}
