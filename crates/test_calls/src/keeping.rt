//! Generic functions that drop values, so that a drop is one step of a proof.
use plain::NoMemory;

/// Returns a value, or `NoMemory` if `is_whole` is false.
pub(crate) fn whole<T: Drop>(value: T, is_whole: bool) -> Result<T, NoMemory> {
    if is_whole { Ok(value) } else { Err(NoMemory) }
}

/// Returns the second value, and drops the first.
pub(crate) fn ended<T: Drop, R>(_kept: T, came: R) -> R {
    came
}
