//! The steps after the evaluation of an operand. Each takes the operand's result; if it is an error, the step returns
//! it. Most borrow the result, since a result that is passed by value is copied. They are separate functions, often not
//! inlined, so that a level of the recursion takes little stack.
ghost use Rattle.std.specs.Prelude.{◌≡◌, ◌++◌, ◌∷◌, []};
ghost use Rattle.values.specs.Fields.{put};
ghost use Rattle.evaluator.specs.Outcomes.{boolean_in, EvaluationResult};
ghost use Rattle.evaluator.specs.inner.Computing.{decided_entities, Answers, AnswersNext, AnswersInto, demanded};
ghost use Rattle.evaluator.specs.inner.Computing.{and_then, as_test, truth, apply_unary, apply_binary};
ghost use Rattle.evaluator.specs.inner.Computing.{apply_unary_call, apply_binary_call, field_of, has_field};

use crate::borrowed_or_owned::BorrowedOrOwned;
use crate::calls::{binary_call, unary_call};
use crate::fault::EvalFault;
use crate::fields::{field, has};
use crate::lookup::Lookup;
use crate::operands::boolean_of;
use crate::operators::{binary, unary};
use grammar_core::{Binary, BinaryCall, Unary, UnaryCall};
use plain::{Text, pair_with};
use std::alloc::Global;
use values::{Record, Value};

/// Returns the value of the operand as a `bool`; `TypeError` if it is not a boolean.
pub(crate) fn tested(given: &Result<BorrowedOrOwned<'_>, EvalFault>) -> Result<bool, EvalFault>
    ensures { AnswersNext given.now (λ v. demanded (boolean_in v)) result }
{
    match given {
        Ok(value) => boolean_of(value),
        Err(fault) => Err(*fault),
    }
}

/// Returns whether the value of the operand has a field or an attribute, as a `bool`.
#[inline(never)]
pub(crate) fn has_as_bool<L: Lookup>(
    store: &L,
    given: &Result<BorrowedOrOwned<'_>, EvalFault>,
    name: &str,
) -> Result<bool, EvalFault>
    ensures { (m : EvaluationResult) → Answers given.now m → Answers result (as_test
        (and_then m (has_field (decided_entities (L.stored store.now) (L.ancestor_test store.now)) name.now))) }
{
    match given {
        Ok(owner) => has(store, owner, name),
        Err(fault) => Err(*fault),
    }
}

/// Returns the `bool` in a result as a value, or the result's error.
pub(crate) fn truth_of<'a>(found: Result<bool, EvalFault>) -> Result<BorrowedOrOwned<'a>, EvalFault>
    ensures { result ≡ and_then found truth }
{
    Ok(BorrowedOrOwned::computed(Value::boolean(found?)))
}

/// Returns the result of an operator on the value of its operand.
#[inline(never)]
pub(crate) fn on_operand<'a>(
    operator: &Unary,
    given: &Result<BorrowedOrOwned<'_>, EvalFault>,
) -> Result<BorrowedOrOwned<'a>, EvalFault>
    ensures { AnswersNext given.now (apply_unary operator.now) result }
{
    match given {
        Ok(value) => Ok(BorrowedOrOwned::computed(unary(operator, value)?)),
        Err(fault) => Err(*fault),
    }
}

/// Returns the result of an operator on two operands. `left` is the value of the first, `right` the result of the
/// second.
#[inline(never)]
pub(crate) fn on_operands<'a, L: Lookup>(
    store: &L,
    operator: Binary,
    left: &BorrowedOrOwned<'_>,
    right: &Result<BorrowedOrOwned<'_>, EvalFault>,
) -> Result<BorrowedOrOwned<'a>, EvalFault>
    ensures { AnswersNext right.now
        (apply_binary (decided_entities (L.stored store.now) (L.ancestor_test store.now)) operator left.now) result }
{
    match right {
        Ok(value) => Ok(BorrowedOrOwned::computed(binary(store, operator, left, value)?)),
        Err(fault) => Err(*fault),
    }
}

/// Returns the result of a call on the value of its operand.
#[inline(never)]
pub(crate) fn called_on<'a>(
    called: UnaryCall,
    given: &Result<BorrowedOrOwned<'_>, EvalFault>,
) -> Result<BorrowedOrOwned<'a>, EvalFault>
    ensures { AnswersNext given.now (apply_unary_call called) result }
{
    match given {
        Ok(value) => Ok(BorrowedOrOwned::computed(unary_call(called, value)?)),
        Err(fault) => Err(*fault),
    }
}

/// Returns the result of a call on two operands. `left` is the value of the first, `right` the result of the second.
#[inline(never)]
pub(crate) fn called_on_two<'a>(
    called: BinaryCall,
    left: &BorrowedOrOwned<'_>,
    right: &Result<BorrowedOrOwned<'_>, EvalFault>,
) -> Result<BorrowedOrOwned<'a>, EvalFault>
    ensures { AnswersNext right.now (apply_binary_call called left.now) result }
{
    match right {
        Ok(value) => Ok(BorrowedOrOwned::computed(binary_call(called, left, value)?)),
        Err(fault) => Err(*fault),
    }
}

/// Returns the field or attribute `name` of the value of the operand.
#[inline(never)]
pub(crate) fn field_in<'a, L: Lookup>(
    alloc: Global,
    store: &'a L,
    given: &Result<BorrowedOrOwned<'a>, EvalFault>,
    name: &str,
) -> Result<BorrowedOrOwned<'a>, EvalFault>
    ensures { AnswersNext given.now
        (field_of (decided_entities (L.stored store.now) (L.ancestor_test store.now)) name.now) result }
{
    match given {
        Ok(owner) => field(alloc, store, owner, name),
        Err(fault) => Err(*fault),
    }
}

/// Returns whether the value of the operand has the field or attribute `name`.
#[inline(never)]
pub(crate) fn has_in<'a, L: Lookup>(
    store: &L,
    given: &Result<BorrowedOrOwned<'_>, EvalFault>,
    name: &str,
) -> Result<BorrowedOrOwned<'a>, EvalFault>
    ensures { AnswersNext given.now
        (has_field (decided_entities (L.stored store.now) (L.ancestor_test store.now)) name.now) result }
{
    match given {
        Ok(owner) => truth_of(has(store, owner, name)),
        Err(fault) => Err(*fault),
    }
}

/// Returns the value of the operand, copied if it is borrowed.
fn value_of(
    alloc: Global,
    given: Result<BorrowedOrOwned<'_>, EvalFault>,
) -> Result<Value, EvalFault>
    ensures { (m : EvaluationResult) → Answers given.entry m → Answers result m }
{
    Ok(given?.into_value(alloc)?)
}

/// Returns the value of the operand as an owned one, copied if it is borrowed.
pub(crate) fn owned<'a>(
    alloc: Global,
    given: Result<BorrowedOrOwned<'_>, EvalFault>,
) -> Result<BorrowedOrOwned<'a>, EvalFault>
    ensures { (m : EvaluationResult) → Answers given.entry m → Answers result m }
{
    Ok(BorrowedOrOwned::computed(value_of(alloc, given)?))
}

/// Appends the value of the operand to `values`.
pub(crate) fn add_value(
    alloc: Global,
    values: &mut Vec<Value>,
    given: Result<BorrowedOrOwned<'_>, EvalFault>,
) -> Result<(), EvalFault>
    ensures { AnswersInto given.entry (λ v. values.new.items ≡ values.old.items ++ v ∷ []) result }
{
    let value = value_of(alloc, given)?;
    values.push(value)?;
    Ok(())
}

/// Sets the field of this name to the value of the operand.
pub(crate) fn add_field(
    alloc: Global,
    fields: &mut Record,
    name: &Text,
    given: Result<BorrowedOrOwned<'_>, EvalFault>,
) -> Result<(), EvalFault>
    ensures { AnswersInto given.entry (λ v. fields.new ≡ put name.now v fields.old) result }
{
    let value = value_of(alloc, given)?;
    let (value, name) = pair_with(value, name.copy())?;
    fields.insert(name, value)?;
    Ok(())
}
