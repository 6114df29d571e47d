//! Helpers of the tests of several libraries. A value that is held while another is made, or that is only dropped, is
//! passed to a generic function, so that its drop is one step of the proof.
use plain::{NoMemory, both};
use std::alloc::{AllocError, Global};
use std::cmp::Ordering;
use std::process::Abort;
use values::{EntityUid, SharedText, TypeName};

/// Returns a value, if the work on it succeeded.
pub(crate) fn finished<T: Drop>(value: T, done: Result<(), NoMemory>) -> Result<T, NoMemory> {
    match done {
        Ok(()) => Ok(value),
        Err(refused) => Err(refused),
    }
}

/// Returns the second value, and drops the first.
pub(crate) fn ended<T: Drop, R>(_kept: T, came: R) -> R {
    came
}

/// Fails the test with the message `what` unless `truth` is true.
pub(crate) fn holds(rt: &impl Abort, truth: bool, what: &str) {
    assert!(rt; truth, "{what}");
}

fn is_less<T: Ord>(less: &T, greater: &T) -> bool {
    less != greater
        && less.cmp(greater) == Ordering::Less
        && greater.partial_cmp(less) == Some(Ordering::Greater)
}

/// Fails the test unless the first of two values is less than the second, by each comparison.
pub(crate) fn ascend<T: Ord + Drop>(
    rt: &impl Abort,
    pair: Result<(T, T), NoMemory>,
    what: &str,
) -> Result<(), NoMemory> {
    let pair = pair?;
    holds(rt, is_less(&pair.0, &pair.1), what);
    Ok(())
}

/// A value that can be copied, if the allocations succeed.
pub(crate) trait Copied: Sized {
    fn copied(&self, alloc: Global) -> Result<Self, NoMemory>;
}

// Copies a value; after a failed allocation tries once more.
fn copy_of<T: Copied>(alloc: Global, value: &T) -> Result<T, NoMemory> {
    match value.copied(alloc) {
        Ok(copy) => Ok(copy),
        Err(_) => value.copied(alloc),
    }
}

fn is_same<T: PartialEq + Drop>(
    rt: &impl Abort,
    pair: Result<(T, T), NoMemory>,
) -> Result<(), NoMemory> {
    let pair = pair?;
    holds(rt, pair.0 == pair.1, "a copy is equal");
    Ok(())
}

/// Fails the test unless a copy is equal to its original. After a failed allocation the copy is tried once more.
pub(crate) fn is_copied<T: Copied + PartialEq + Drop>(
    rt: &impl Abort,
    alloc: Global,
    made: Result<T, NoMemory>,
) -> Result<(), NoMemory> {
    let value = made?;
    let copy = copy_of(alloc, &value);
    is_same(rt, both(Ok(value), copy))
}

// Returns the value in `found`. If there is none, the error is `NoMemory`.
fn some<T: Drop>(found: Result<Option<T>, NoMemory>) -> Result<T, NoMemory> {
    match found? {
        Some(value) => Ok(value),
        None => Err(AllocError),
    }
}

/// Returns the uid of this type and id. If the type is not a path, the error is `NoMemory`.
pub(crate) fn uid_of(alloc: Global, type_name: &str, id: &str) -> Result<EntityUid, NoMemory> {
    let type_name = some(TypeName::parse(alloc, type_name));
    let (type_name, id) = both(type_name, SharedText::from_str(alloc, id))?;
    Ok(EntityUid { type_name, id })
}
