//! Functions that pair the values of two results, or a value with the value of one result.
ghost use Rattle.std.specs.Prelude.{◌≡◌, IfOk, IfErr, Ok, Err};

/// Returns `kept` with the value of `made`, or drops `kept` and returns the error of `made`.
///
/// The function is generic, so that dropping `kept` is one step of the caller's proof, and not one for each variant of
/// its type.
pub fn pair_with<T: Drop, U, E>(kept: T, made: Result<U, E>) -> Result<(T, U), E>
    ensures made { IfOk result (λ both. made ≡ Ok both.1) }
    ensures kept { IfOk result (λ both. both.0 ≡ kept) }
    ensures halts { IfErr result (λ why. made ≡ Err why) }
{
    match made {
        Ok(more) => Ok((kept, more)),
        Err(why) => Err(why),
    }
}

/// Returns the values of two results; or the error of `first`, if it has one, else that of `second`.
///
/// The function is generic for the same reason as [`pair_with`].
pub fn both<A: Drop, B: Drop, E: Drop>(
    first: Result<A, E>,
    second: Result<B, E>,
) -> Result<(A, B), E>
    ensures first { IfOk result (λ pair. first ≡ Ok pair.0) }
    ensures second { IfOk result (λ pair. second ≡ Ok pair.1) }
{
    let first = first?;
    let second = second?;
    Ok((first, second))
}
