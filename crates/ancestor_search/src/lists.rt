//! Ascending lists of entities.
ghost use Rattle.std.specs.Prelude.{◌≡◌, ◌↔◌, IsTrue, IfOk, MatchOption, Contains};
ghost use Rattle.ancestor_search.specs.Hierarchy.{IsAscending, referenced};
ghost use Rattle.ancestor_search.specs.inner.Numbering.{IsNumber, HasNoNumber};

use plain::NoMemory;
use std::alloc::Global;
use std::collections::BTreeSet;
use values::EntityUid;

/// Returns the members of a set, ascending.
pub fn listed<'a>(
    alloc: Global,
    found: BTreeSet<&'a EntityUid>,
) -> Result<Vec<&'a EntityUid>, NoMemory>
    ensures same { IfOk result (λ all. referenced all.items ≡ referenced found.entry.keys) }
    ensures ascending { IsAscending (referenced found.entry.keys) }
{
    let _ascending = found.len();
    found.into_iter().collect(alloc)
}

/// Returns the number of an entity, which is its index in the ascending list `uids`; `None` if the list does not
/// contain it.
pub(crate) fn number_of(uids: &[&EntityUid], uid: &EntityUid) -> Option<usize>
    requires { IsAscending (referenced uids.now) }
    ensures { MatchOption result (HasNoNumber (referenced uids.now) uid.now)
        (λ i. IsNumber (referenced uids.now) i uid.now) }
{
    match uids.binary_search(&uid) {
        Ok(number) => Some(number),
        Err(_) => None,
    }
}

/// Returns whether an ascending list, such as [`crate::ancestors_of`] returns, contains an entity. O(log n) for a list
/// of n entities. Does not allocate.
pub fn is_among(uids: &[&EntityUid], uid: &EntityUid) -> bool
    requires { IsAscending (referenced uids.now) }
    ensures { IsTrue result ↔ Contains (referenced uids.now) uid.now }
{
    number_of(uids, uid).is_some()
}
