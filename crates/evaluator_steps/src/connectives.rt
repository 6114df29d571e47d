//! Short-circuit evaluation of `&&`.
ghost use Rattle.std.specs.Prelude.{Bool, Result, unwrap_or};
ghost use Rattle.evaluator_steps.specs.Connectives.{AndGives};

/// Returns the result of `&&` if its first operand determines it: false, or the first operand's error. Returns `None`
/// if the result is that of the second operand.
///
/// A caller evaluates the second operand only if this function returns `None`, so an error of the second operand does
/// not replace a false first operand. Does not allocate. Source: Cedar reference guide, "Operators and functions".
pub fn decided_by_first<E: Copy>(first: Result<bool, E>) -> Option<Result<bool, E>>
    ensures { (second : Result Bool E) → AndGives first second (unwrap_or result second) }
{
    match first {
        Ok(true) => None,
        Ok(false) => Some(Ok(false)),
        Err(error) => Some(Err(error)),
    }
}
