//! Evaluates `if`, `&&` and `||`, whose first operand decides what else is evaluated. For each of them one function
//! returns a value, and one a `bool`, so that no value is built for a result that is only tested.
ghost use Rattle.evaluator.specs.inner.Computing.{decided_entities, Answers, meaning, as_test, choice, both, either};

use crate::borrowed_or_owned::BorrowedOrOwned;
use crate::eval_env::EvalEnv;
use crate::evaluating::outcome_of;
use crate::fault::EvalFault;
use crate::steps::truth_of;
use crate::testing::test_of;
use evaluator_steps::decided_by_first;
use grammar_core::Expr;
use std::alloc::Global;

/// Evaluates `if`: its test, and then the branch that the test selects.
#[cycle(evaluate)]
#[inline(never)]
pub(crate) fn choice_of<'a, L: EvalEnv>(
    alloc: Global,
    test: &'a Expr,
    consequent: &'a Expr,
    alternative: &'a Expr,
    env: &'a L,
) -> Result<BorrowedOrOwned<'a>, EvalFault>
    ensures { let gives = meaning (L.request_of env.now)
        (decided_entities (L.stored env.now) (L.ancestor_test env.now)) in
        Answers result (choice (gives test.now) (gives consequent.now) (gives alternative.now)) }
{
    if test_of(alloc, test, env)? {
        outcome_of(alloc, consequent, env)
    } else {
        outcome_of(alloc, alternative, env)
    }
}

/// Evaluates `if` as a `bool`: its test, and then the branch that the test selects.
#[cycle(evaluate)]
#[inline(never)]
pub(crate) fn choice_test<'a, L: EvalEnv>(
    alloc: Global,
    test: &'a Expr,
    consequent: &'a Expr,
    alternative: &'a Expr,
    env: &'a L,
) -> Result<bool, EvalFault>
    ensures { let gives = meaning (L.request_of env.now)
        (decided_entities (L.stored env.now) (L.ancestor_test env.now)) in
        Answers result (as_test (choice (gives test.now) (gives consequent.now) (gives alternative.now))) }
{
    if test_of(alloc, test, env)? {
        test_of(alloc, consequent, env)
    } else {
        test_of(alloc, alternative, env)
    }
}

/// Evaluates `&&` as a `bool`.
#[cycle(evaluate)]
#[inline(never)]
pub(crate) fn both_test<'a, L: EvalEnv>(
    alloc: Global,
    left: &'a Expr,
    right: &'a Expr,
    env: &'a L,
) -> Result<bool, EvalFault>
    ensures { let gives = meaning (L.request_of env.now)
        (decided_entities (L.stored env.now) (L.ancestor_test env.now)) in
        Answers result (as_test (both (gives left.now) (gives right.now))) }
{
    let first = test_of(alloc, left, env);
    match decided_by_first(first) {
        Some(outcome) => outcome,
        None => test_of(alloc, right, env),
    }
}

/// Evaluates `||` as a `bool`.
#[cycle(evaluate)]
#[inline(never)]
pub(crate) fn either_test<'a, L: EvalEnv>(
    alloc: Global,
    left: &'a Expr,
    right: &'a Expr,
    env: &'a L,
) -> Result<bool, EvalFault>
    ensures { let gives = meaning (L.request_of env.now)
        (decided_entities (L.stored env.now) (L.ancestor_test env.now)) in
        Answers result (as_test (either (gives left.now) (gives right.now))) }
{
    let first = test_of(alloc, left, env)?;
    if first {
        Ok(first)
    } else {
        test_of(alloc, right, env)
    }
}

/// Evaluates `&&`.
#[cycle(evaluate)]
#[inline(never)]
pub(crate) fn both_of<'a, L: EvalEnv>(
    alloc: Global,
    left: &'a Expr,
    right: &'a Expr,
    env: &'a L,
) -> Result<BorrowedOrOwned<'a>, EvalFault>
    ensures { let gives = meaning (L.request_of env.now)
        (decided_entities (L.stored env.now) (L.ancestor_test env.now)) in
        Answers result (both (gives left.now) (gives right.now)) }
{
    truth_of(both_test(alloc, left, right, env))
}

/// Evaluates `||`.
#[cycle(evaluate)]
#[inline(never)]
pub(crate) fn either_of<'a, L: EvalEnv>(
    alloc: Global,
    left: &'a Expr,
    right: &'a Expr,
    env: &'a L,
) -> Result<BorrowedOrOwned<'a>, EvalFault>
    ensures { let gives = meaning (L.request_of env.now)
        (decided_entities (L.stored env.now) (L.ancestor_test env.now)) in
        Answers result (either (gives left.now) (gives right.now)) }
{
    truth_of(either_test(alloc, left, right, env))
}
