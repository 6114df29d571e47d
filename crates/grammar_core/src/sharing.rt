//! Functions that put operands on the heap. Each is generic, so that the drop after a failed allocation is one step of
//! its proof, and not one for each variant of an expression.

ghost use Rattle.std.specs.Prelude.{◌≡◌, IfOk};

use plain::{NoMemory, Shared};
use std::alloc::Global;

/// Returns two values, each as a shared value.
pub(crate) fn two<T: Drop>(alloc: Global, a: T, b: T) -> Result<(Shared<T>, Shared<T>), NoMemory>
    ensures { IfOk result (λ all. all ≡ (a, b)) }
{
    Ok((Shared::new(alloc, a)?, Shared::new(alloc, b)?))
}

/// Returns three values, each as a shared value.
pub(crate) fn three<T: Drop>(
    alloc: Global,
    a: T,
    b: T,
    c: T,
) -> Result<(Shared<T>, Shared<T>, Shared<T>), NoMemory>
    ensures { IfOk result (λ all. all ≡ (a, b, c)) }
{
    Ok((
        Shared::new(alloc, a)?,
        Shared::new(alloc, b)?,
        Shared::new(alloc, c)?,
    ))
}

/// Returns two references to one shared value, `a`, and one to another, `b`.
pub(crate) fn twice<T: Drop>(
    alloc: Global,
    a: T,
    b: T,
) -> Result<(Shared<T>, Shared<T>, Shared<T>), NoMemory>
    ensures { IfOk result (λ all. all ≡ (a, a, b)) }
{
    let a = Shared::new(alloc, a)?;
    Ok((a.share()?, a, Shared::new(alloc, b)?))
}
