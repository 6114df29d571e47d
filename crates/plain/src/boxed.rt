//! Values in a `Box`.
ghost use Rattle.std.specs.Prelude.{◌≡◌, IfOk};

use crate::NoMemory;
use std::alloc::Global;
use std::cmp::Ordering;
use std::marker::Model;
use std::ops::Deref;

/// A value in a `Box`. Contracts see the value itself.
#[derive(Drop)]
pub struct Boxed<T> {
    owner: Box<T>,
}

impl<T> Model for Boxed<T> {
    ghost Value = { T };

    ghost coded = { T.code };

    ghost view = { λ b. b.owner.value };
}

impl<T> Boxed<T> {
    /// Wraps a `Box`. Does not allocate.
    pub fn from_box(owner: Box<T>) -> Boxed<T>
        ensures { result ≡ owner.value }
    {
        Boxed { owner }
    }

    /// Returns the `Box`. Does not allocate.
    pub fn into_box(self) -> Box<T>
        ensures { result.value ≡ self }
    {
        let Boxed { owner } = self;
        owner
    }

    /// Returns the value. Does not allocate.
    pub fn into_inner(self) -> T
        ensures { result ≡ self }
    {
        let Boxed { owner } = self;
        Box::into_inner(owner)
    }
}

/// A box is borrowed as its value. Does not allocate.
impl<T> Deref for Boxed<T> {
    type Target = T;

    ghost deref_gives = { λ b x. x ≡ b };

    fn deref(&self) -> &T {
        &self.owner
    }
}

impl<T: Drop> Boxed<T> {
    /// Creates a box with a value, or returns `NoMemory`.
    pub fn new(alloc: Global, value: T) -> Result<Boxed<T>, NoMemory>
        ensures { IfOk result (λ b. b ≡ value) }
    {
        let owner = Box::new(alloc, value)?;
        Ok(Boxed { owner })
    }
}

/// Boxes are equal if their values are. Allocates only if comparing values does.
impl<T: PartialEq> PartialEq for Boxed<T> {
    ghost eq = { λ a b. T.eq a b };

    ghost laws = { T.laws };

    fn eq(&self, other: &Boxed<T>) -> bool {
        **self == **other
    }
}

impl<T: Eq> Eq for Boxed<T> {
    ghost laws = { T.Eq.laws };
}

/// Boxes are ordered by their values. Allocates only if comparing values does.
impl<T: PartialOrd> PartialOrd for Boxed<T> {
    ghost partial_cmp = { λ a b. T.partial_cmp a b };

    ghost laws = { T.PartialOrd.laws };

    fn partial_cmp(&self, other: &Boxed<T>) -> Option<Ordering> {
        (**self).partial_cmp(other)
    }
}

impl<T: Ord> Ord for Boxed<T> {
    ghost cmp = { λ a b. T.cmp a b };

    ghost total = { T.total };

    ghost matches_partial_cmp = { λ a b. T.matches_partial_cmp a b };

    ghost matches_eq = { λ a b. T.matches_eq a b };

    fn cmp(&self, other: &Boxed<T>) -> Ordering {
        (**self).cmp(other)
    }
}
