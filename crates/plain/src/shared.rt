//! Values that several owners share.
ghost use Rattle.std.specs.Prelude.{◌≡◌, IfOk};

use crate::NoMemory;
use std::alloc::Global;
use std::cmp::Ordering;
use std::marker::Model;
use std::ops::Deref;
use std::rc::Rc;

/// A reference-counted value. Contracts see the value, however many references there are.
///
/// The value is immutable, and is dropped with its last reference.
#[derive(Drop)]
pub struct Shared<T> {
    owner: Rc<T>,
}

impl<T> Model for Shared<T> {
    ghost Value = { T };

    ghost coded = { T.code };

    ghost view = { λ s. s.owner.value };
}

/// A shared value is borrowed as the value itself. Does not allocate.
impl<T> Deref for Shared<T> {
    type Target = T;

    ghost deref_gives = { λ s x. x ≡ s };

    fn deref(&self) -> &T {
        self.owner.as_ref()
    }
}

impl<T: Drop> Shared<T> {
    /// Creates a shared value with one reference, or returns `NoMemory`.
    pub fn new(alloc: Global, value: T) -> Result<Shared<T>, NoMemory>
        ensures { IfOk result (λ s. s ≡ value) }
    {
        let owner = Rc::new(alloc, value)?;
        Ok(Shared { owner })
    }

    /// Returns one more reference to the value. Does not allocate.
    ///
    /// # Errors
    ///
    /// - `NoMemory`: the count of references would exceed 2^64 - 1.
    pub fn share(&self) -> Result<Shared<T>, NoMemory>
        ensures { IfOk result (λ s. s ≡ self.now) }
    {
        let owner = self.owner.clone()?;
        Ok(Shared { owner })
    }
}

/// References are equal if their values are. Allocates only if comparing values does.
impl<T: PartialEq> PartialEq for Shared<T> {
    ghost eq = { λ a b. T.eq a b };

    ghost laws = { T.laws };

    fn eq(&self, other: &Shared<T>) -> bool {
        **self == **other
    }
}

impl<T: Eq> Eq for Shared<T> {
    ghost laws = { T.Eq.laws };
}

/// References are ordered by their values. Allocates only if comparing values does.
impl<T: PartialOrd> PartialOrd for Shared<T> {
    ghost partial_cmp = { λ a b. T.partial_cmp a b };

    ghost laws = { T.PartialOrd.laws };

    fn partial_cmp(&self, other: &Shared<T>) -> Option<Ordering> {
        (**self).partial_cmp(other)
    }
}

impl<T: Ord> Ord for Shared<T> {
    ghost cmp = { λ a b. T.cmp a b };

    ghost total = { T.total };

    ghost matches_partial_cmp = { λ a b. T.matches_partial_cmp a b };

    ghost matches_eq = { λ a b. T.matches_eq a b };

    fn cmp(&self, other: &Shared<T>) -> Ordering {
        (**self).cmp(other)
    }
}
