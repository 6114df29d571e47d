//! The evaluator: a recursion over expressions.
ghost use Rattle.std.specs.Prelude.{[], map, Ok};
ghost use Rattle.values.specs.Values.{set, record_of, values_of, fields_of};
ghost use Rattle.values.specs.Sets.{set_list};
ghost use Rattle.evaluator.specs.Operators.{entities_with};
ghost use Rattle.evaluator.specs.Evaluation.{IsSoundEvaluation, IsCompleteEvaluation, AnswersTest};
ghost use Rattle.evaluator.specs.inner.Computing.{decided_entities, Answers, meaning, named_meaning, each};
ghost use Rattle.evaluator.specs.inner.Computing.{each_field, and_then, apply_unary, apply_binary};
ghost use Rattle.evaluator.specs.inner.Computing.{apply_unary_call, apply_binary_call, field_of, has_field};

use crate::borrowed_or_owned::BorrowedOrOwned;
use crate::choosing::{both_of, choice_of, either_of};
use crate::eval_env::{EvalEnv, RequestEnv};
use crate::fault::EvalFault;
use crate::fields::variable_field;
use crate::laws::meaning_is_outcome;
use crate::leaves::{literal_of, variable_of};
use crate::lookup::Lookup;
use crate::steps::{
    add_field, add_value, called_on, called_on_two, field_in, has_in, on_operand, on_operands,
    owned,
};
use crate::testing::test_of;
use grammar_core::{Binary, BinaryCall, Expr, Named, Unary, UnaryCall};
use plain::Items;
use std::alloc::Global;
use values::{Record, Request, Value};

/// Evaluates an expression under a request, over the stored entities. Like [`evaluate_in`], but the value is always
/// owned: a borrowed one is copied, which fails with `NoMemory` if an allocation does.
pub fn evaluate<'a, L: Lookup>(
    alloc: Global,
    expr: &'a Expr,
    request: &'a Request,
    store: &'a L,
) -> Result<BorrowedOrOwned<'a>, EvalFault>
    ensures sound { IsSoundEvaluation (entities_with (L.stored store.now) (L.parents store.now)) request.now expr.now
        result }
    ensures complete { IsCompleteEvaluation (entities_with (L.stored store.now) (L.parents store.now)) request.now
        expr.now result }
{
    meaning_is_outcome();
    let env = RequestEnv { request, store };
    owned(alloc, outcome_of(alloc, expr, &env))
}

/// Returns the boolean value of an expression under a request, over the stored entities. The errors are those of
/// [`evaluate_condition`].
pub fn evaluate_test<L: Lookup>(
    alloc: Global,
    expr: &Expr,
    request: &Request,
    store: &L,
) -> Result<bool, EvalFault>
    ensures { AnswersTest (entities_with (L.stored store.now) (L.parents store.now)) request.now expr.now result }
{
    evaluate_condition(alloc, expr, &RequestEnv { request, store })
}

/// Evaluates an expression under the environment's request, over its stored entities, to a value or the first error.
///
/// Literals, variables, attributes of entities and fields of borrowed records give borrowed results. `if` gives the
/// result of the branch that its test selects. All other results are owned.
///
/// Set and record expressions may allocate. Access to a field may allocate if evaluation built the record, since the
/// field's value is copied; `in` may allocate, since it queries the hierarchy. Operands are evaluated from left to
/// right, the fields of a record in the order in which they are written; `&&`, `||` and `if` evaluate only what they
/// need.
///
/// # Errors
///
/// - `EntityDoesNotExist`, `AttrDoesNotExist`, `TypeError`, `ArithBoundsError`, `ExtensionError`: the first error of
///   the evaluation.
/// - `NoMemory`: an allocation failed.
///
/// Recursive: the stack grows with the height of the expression, by less than two kilobytes a level.
///
/// Source: Cedar reference guide, "Operators and functions".
pub fn evaluate_in<'a, L: EvalEnv>(
    alloc: Global,
    expr: &'a Expr,
    env: &'a L,
) -> Result<BorrowedOrOwned<'a>, EvalFault>
    ensures sound { IsSoundEvaluation (entities_with (L.stored env.now) (L.parents env.now)) (L.request_of env.now)
        expr.now result }
    ensures complete { IsCompleteEvaluation (entities_with (L.stored env.now) (L.parents env.now))
        (L.request_of env.now) expr.now result }
{
    meaning_is_outcome();
    outcome_of(alloc, expr, env)
}

/// Returns the boolean value of an expression.
///
/// # Errors
///
/// - The errors of [`evaluate_in`].
/// - `TypeError`: the value is not a boolean.
pub fn evaluate_condition<L: EvalEnv>(
    alloc: Global,
    expr: &Expr,
    env: &L,
) -> Result<bool, EvalFault>
    ensures { AnswersTest (entities_with (L.stored env.now) (L.parents env.now)) (L.request_of env.now) expr.now
        result }
{
    meaning_is_outcome();
    test_of(alloc, expr, env)
}

// Evaluates an expression. Each arm is one call, so that a level of the recursion takes little stack: a function
// reserves its whole frame at entry, with space for the locals of all its arms. Most code that handles an operand's
// result is in functions outside the recursion (steps.rt), most of which borrow that result.
#[cycle(evaluate)]
pub(crate) fn outcome_of<'a, L: EvalEnv>(
    alloc: Global,
    expr: &'a Expr,
    env: &'a L,
) -> Result<BorrowedOrOwned<'a>, EvalFault>
    ensures { Answers result
        (meaning (L.request_of env.now) (decided_entities (L.stored env.now) (L.ancestor_test env.now)) expr.now) }
{
    match expr {
        Expr::Literal(literal) => literal_of(literal),
        Expr::Variable(variable) => variable_of(*variable, env),
        Expr::If(test, consequent, alternative) => {
            choice_of(alloc, test, consequent, alternative, env)
        }
        Expr::And(left, right) => both_of(alloc, left, right, env),
        Expr::Or(left, right) => either_of(alloc, left, right, env),
        Expr::Unary(operator, operand) => one_operand(alloc, operator, operand, env),
        Expr::Binary(operator, left, right) => { two_operands(alloc, *operator, left, right, env) }
        Expr::Field(owner, name) => field_of(alloc, owner, name.as_str(), env),
        Expr::Has(owner, name) => has_of(alloc, owner, name.as_str(), env),
        Expr::Set(members) => set_of(alloc, members.as_slice(), env),
        Expr::Record(fields) => record_of(alloc, fields, env),
        Expr::UnaryCall(called, operand) => call_of_one(alloc, *called, operand, env),
        Expr::BinaryCall(called, left, right) => { call_of_two(alloc, *called, left, right, env) }
    }
}

/// Returns the result of an operator on the values of two expressions.
#[cycle(evaluate)]
#[inline(never)]
pub(crate) fn two_operands<'a, L: EvalEnv>(
    alloc: Global,
    operator: Binary,
    left: &'a Expr,
    right: &'a Expr,
    env: &'a L,
) -> Result<BorrowedOrOwned<'a>, EvalFault>
    ensures { let world = decided_entities (L.stored env.now) (L.ancestor_test env.now) in
        Answers result (and_then (meaning (L.request_of env.now) world left.now)
        (λ v. and_then (meaning (L.request_of env.now) world right.now) (apply_binary world operator v))) }
{
    let left = outcome_of(alloc, left, env);
    match &left {
        Ok(value) => {
            let right = outcome_of(alloc, right, env);
            on_operands(env, operator, value, &right)
        }
        Err(fault) => Err(*fault),
    }
}

/// Returns the result of a call on the values of two expressions.
#[cycle(evaluate)]
#[inline(never)]
fn call_of_two<'a, L: EvalEnv>(
    alloc: Global,
    called: BinaryCall,
    left: &'a Expr,
    right: &'a Expr,
    env: &'a L,
) -> Result<BorrowedOrOwned<'a>, EvalFault>
    ensures { let world = decided_entities (L.stored env.now) (L.ancestor_test env.now) in
        Answers result (and_then (meaning (L.request_of env.now) world left.now)
        (λ v. and_then (meaning (L.request_of env.now) world right.now) (apply_binary_call called v))) }
{
    let left = outcome_of(alloc, left, env);
    match &left {
        Ok(value) => {
            let right = outcome_of(alloc, right, env);
            called_on_two(called, value, &right)
        }
        Err(fault) => Err(*fault),
    }
}

/// Returns the result of an operator on the value of an expression.
#[cycle(evaluate)]
#[inline(never)]
fn one_operand<'a, L: EvalEnv>(
    alloc: Global,
    operator: &Unary,
    operand: &'a Expr,
    env: &'a L,
) -> Result<BorrowedOrOwned<'a>, EvalFault>
    ensures { Answers result (and_then
        (meaning (L.request_of env.now) (decided_entities (L.stored env.now) (L.ancestor_test env.now)) operand.now)
        (apply_unary operator.now)) }
{
    let given = outcome_of(alloc, operand, env);
    on_operand(operator, &given)
}

/// Returns the result of a call on the value of an expression.
#[cycle(evaluate)]
#[inline(never)]
fn call_of_one<'a, L: EvalEnv>(
    alloc: Global,
    called: UnaryCall,
    operand: &'a Expr,
    env: &'a L,
) -> Result<BorrowedOrOwned<'a>, EvalFault>
    ensures { Answers result (and_then
        (meaning (L.request_of env.now) (decided_entities (L.stored env.now) (L.ancestor_test env.now)) operand.now)
        (apply_unary_call called)) }
{
    let given = outcome_of(alloc, operand, env);
    called_on(called, &given)
}

/// Returns the field or attribute `name` of the value of an expression.
#[cycle(evaluate)]
#[inline(never)]
pub(crate) fn field_of<'a, L: EvalEnv>(
    alloc: Global,
    owner: &'a Expr,
    name: &str,
    env: &'a L,
) -> Result<BorrowedOrOwned<'a>, EvalFault>
    ensures { Answers result (and_then
        (meaning (L.request_of env.now) (decided_entities (L.stored env.now) (L.ancestor_test env.now)) owner.now)
        (field_of (decided_entities (L.stored env.now) (L.ancestor_test env.now)) name.now)) }
{
    match owner {
        Expr::Variable(variable) => {
            let value = variable_field(env, *variable, name)?;
            Ok(BorrowedOrOwned::borrowed(value))
        }
        other => {
            let given = outcome_of(alloc, other, env);
            field_in(alloc, env, &given, name)
        }
    }
}

/// Returns whether the value of an expression has the field or attribute `name`.
#[cycle(evaluate)]
#[inline(never)]
fn has_of<'a, L: EvalEnv>(
    alloc: Global,
    owner: &'a Expr,
    name: &str,
    env: &'a L,
) -> Result<BorrowedOrOwned<'a>, EvalFault>
    ensures { Answers result (and_then
        (meaning (L.request_of env.now) (decided_entities (L.stored env.now) (L.ancestor_test env.now)) owner.now)
        (has_field (decided_entities (L.stored env.now) (L.ancestor_test env.now)) name.now)) }
{
    let given = outcome_of(alloc, owner, env);
    has_in(env, &given, name)
}

/// Returns the set of the values of expressions.
#[cycle(evaluate)]
#[inline(never)]
fn set_of<'a, L: EvalEnv>(
    alloc: Global,
    members: &'a [Expr],
    env: &'a L,
) -> Result<BorrowedOrOwned<'a>, EvalFault>
    ensures { Answers result (and_then
        (each (map (meaning (L.request_of env.now) (decided_entities (L.stored env.now) (L.ancestor_test env.now)))
        members.now))
        (λ vs. Ok (set (values_of (set_list vs))))) }
{
    let mut values = Vec::with_capacity(alloc, members.len())?;
    for member in members {
        let given = outcome_of(alloc, member, env);
        add_value(alloc, &mut values, given)?;
    }
    Ok(BorrowedOrOwned::computed(Value::set(values)?))
}

/// Returns the record of the values of named expressions.
#[cycle(evaluate)]
#[inline(never)]
fn record_of<'a, L: EvalEnv>(
    alloc: Global,
    fields: &'a Items<Named<Expr>>,
    env: &'a L,
) -> Result<BorrowedOrOwned<'a>, EvalFault>
    ensures { Answers result (and_then
        (each_field
        (map (named_meaning (L.request_of env.now)
        (decided_entities (L.stored env.now) (L.ancestor_test env.now))) fields.now)
        []) (λ done. Ok (record_of (fields_of done)))) }
{
    let mut record = Record::new(alloc);
    for field in fields.as_slice() {
        let given = outcome_of(alloc, &field.value, env);
        add_field(alloc, &mut record, &field.name, given)?;
    }
    Ok(BorrowedOrOwned::computed(Value::from_record(record)))
}
