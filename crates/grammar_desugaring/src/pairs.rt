//! Functions that combine the results of building the parts of an expression.
ghost use Rattle.std.specs.Prelude.{◌≡◌, ◌++◌, ◌∷◌, [], IfOk};
ghost use Rattle.grammar_desugaring.specs.inner.Giving.{Gave};

use plain::NoMemory;

/// Returns both values, or `NoMemory`.
///
/// The functions of this module are generic, so that dropping a value is one step of their proof, and not one for each
/// variant of an expression.
pub(crate) fn both<A: Drop, B: Drop>(
    left: Result<A, NoMemory>,
    right: Result<B, NoMemory>,
) -> Result<(A, B), NoMemory>
    ensures { IfOk result (λ pair. Gave left (λ a. Gave right (λ b. pair ≡ (a, b)))) }
{
    let left = left?;
    let right = right?;
    Ok((left, right))
}

/// Returns all three values, or `NoMemory`.
pub(crate) fn all_three<A: Drop, B: Drop, C: Drop>(
    first: Result<A, NoMemory>,
    second: Result<B, NoMemory>,
    third: Result<C, NoMemory>,
) -> Result<(A, B, C), NoMemory>
    ensures { IfOk result
        (λ all. Gave first (λ a. Gave second (λ b. Gave third (λ c. all ≡ (a, b, c))))) }
{
    let first = first?;
    let second = second?;
    let third = third?;
    Ok((first, second, third))
}

/// Appends the value of `made` to a list. Returns `NoMemory` if `made` has no value, or if the list cannot grow.
pub(crate) fn add<T: Drop>(row: &mut Vec<T>, made: Result<T, NoMemory>) -> Result<(), NoMemory>
    ensures { IfOk result (λ done. Gave made (λ x. row.new.items ≡ row.old.items ++ x ∷ [])) }
{
    row.push(made?)?;
    Ok(())
}
