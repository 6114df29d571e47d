//! Integer operands. They are read outside the recursion of the evaluator, so that its stack frames need no space for
//! them. A value of another kind is read as `None`.
ghost use Rattle.std.specs.Prelude.{◌≡◌};
ghost use Rattle.grammar_core.specs.declared.operator.Binary.TheVariants.{Less, LessOrEqual};
ghost use Rattle.evaluator.specs.Outcomes.{EvaluationResult, long_in};
ghost use Rattle.evaluator.specs.Evaluation.{literal_value};
ghost use Rattle.evaluator.specs.inner.Computing.{DecidedEntities, Answers, and_then, as_test, apply_binary};
ghost use Rattle.evaluator.specs.inner.Computing.{two_demanded, AnswersNumber, AnswersNumbers};

use crate::borrowed_or_owned::BorrowedOrOwned;
use crate::fault::EvalFault;
use grammar_core::Literal;
use values::{BorrowedKind, Kind, Value};

/// The integers in the values of two operands; `None` for a value of another kind.
#[derive(Clone, Copy)]
pub(crate) struct Numbers {
    pub(crate) first: Option<i64>,
    pub(crate) second: Option<i64>,
}

/// Returns the integer in a value, or `None` if the value is of another kind.
pub(crate) fn number_or_none(value: &Value) -> Option<i64>
    ensures { result ≡ long_in value.now }
{
    match value.kind() {
        Kind::Long(number) => Some(*number),
        _ => None,
    }
}

/// Returns the integer of a literal, or `None` if the literal is of another kind.
pub(crate) fn literal_number(literal: &Literal) -> Option<i64>
    ensures { result ≡ long_in (literal_value literal.now) }
{
    match literal {
        Literal::Long(number) => Some(*number),
        _ => None,
    }
}

/// Returns the integer in a result, `None` if the value is of another kind, or the result's error.
pub(crate) fn number_in(
    given: &Result<BorrowedOrOwned<'_>, EvalFault>,
) -> Result<Option<i64>, EvalFault>
    ensures { (m : EvaluationResult) → Answers given.now m → AnswersNumber result m }
{
    match given {
        Ok(value) => match value.kind() {
            BorrowedKind::Long(number) => Ok(Some(number)),
            _ => Ok(None),
        },
        Err(fault) => Err(*fault),
    }
}

/// Returns both integers; `TypeError` if one of them is `None`.
fn both(numbers: Numbers) -> Result<(i64, i64), EvalFault>
    ensures { result ≡ two_demanded numbers.first numbers.second }
{
    match (numbers.first, numbers.second) {
        (Some(first), Some(second)) => Ok((first, second)),
        _ => Err(EvalFault::TypeError),
    }
}

/// Returns whether the first of two integers is less than the second. The error is that of `found`, or `TypeError` if
/// a value is not an integer.
pub(crate) fn is_less(found: Result<Numbers, EvalFault>) -> Result<bool, EvalFault>
    ensures { (E : DecidedEntities) (a b : EvaluationResult) → AnswersNumbers found a b
        → Answers result (as_test (and_then a (λ v. and_then b (apply_binary E Less v)))) }
{
    match found {
        Ok(numbers) => {
            let (first, second) = both(numbers)?;
            Ok(first < second)
        }
        Err(fault) => Err(fault),
    }
}

/// Returns whether the first of two integers is at most the second. The errors are those of [`is_less`].
pub(crate) fn is_less_or_equal(found: Result<Numbers, EvalFault>) -> Result<bool, EvalFault>
    ensures { (E : DecidedEntities) (a b : EvaluationResult) → AnswersNumbers found a b
        → Answers result (as_test (and_then a (λ v. and_then b (apply_binary E LessOrEqual v)))) }
{
    match found {
        Ok(numbers) => {
            let (first, second) = both(numbers)?;
            Ok(first <= second)
        }
        Err(fault) => Err(fault),
    }
}
