//! The value of an expression as the evaluator returns it, borrowed or owned.
ghost use Rattle.std.specs.Prelude.{◌≡◌, IfOk};
ghost use Rattle.values.specs.ValueOrder.{value_cmp};
ghost use Rattle.evaluator.specs.Outcomes.{boolean_in};
ghost use Rattle.values.specs.BorrowedView.{of_borrowed};

use plain::NoMemory;
use std::alloc::Global;
use std::cmp::Ordering;
use std::marker::Model;
use values::{BorrowedKind, Value, ValueRef};

/// The value of an expression, either owned or borrowed from the expression, the request or the stored entities.
/// Contracts see the value.
#[derive(Drop)]
pub struct BorrowedOrOwned<'a> {
    pub(crate) ownership: Ownership<'a>,
}

/// A value, borrowed or owned.
#[derive(Drop)]
pub(crate) enum Ownership<'a> {
    /// Borrowed from the expression, the request or the stored entities.
    Borrowed(ValueRef<'a>),
    /// Computed by the evaluation, or copied.
    Owned(Value),
}

impl<'a> Model for BorrowedOrOwned<'a> {
    ghost use Rattle.values.specs.Values.{PlainValue};
    ghost use Rattle.values.specs.ValueCode.{value_code};

    ghost Value = { PlainValue };

    ghost coded = { value_code };

    ghost use Rattle.evaluator.specs.OwnershipViews.{of_ownership};

    ghost view = { λ a. of_ownership a.ownership };
}

impl<'a> BorrowedOrOwned<'a> {
    /// Creates a borrowed value.
    pub(crate) fn borrowed(value: &'a Value) -> BorrowedOrOwned<'a>
        ensures { result ≡ value.now }
    {
        BorrowedOrOwned {
            ownership: Ownership::Borrowed(value.as_ref()),
        }
    }

    /// Creates an owned value, which evaluation computed or copied.
    pub(crate) fn computed(value: Value) -> BorrowedOrOwned<'a>
        ensures { result ≡ value }
    {
        BorrowedOrOwned {
            ownership: Ownership::Owned(value),
        }
    }

    /// Returns the content of the value, by its kind.
    #[inline(always)]
    pub(crate) fn kind(&self) -> BorrowedKind<'_>
        ensures { of_borrowed result ≡ self.now }
    {
        match &self.ownership {
            Ownership::Borrowed(value) => value.kind(),
            Ownership::Owned(value) => value.as_ref().kind(),
        }
    }

    /// Compares the value with a borrowed one, in the order of values.
    fn compare_with(&self, other: &ValueRef<'_>) -> Ordering
        ensures { result ≡ value_cmp self.now other.now }
    {
        match &self.ownership {
            Ownership::Borrowed(value) => value.compare(other),
            Ownership::Owned(value) => value.as_ref().compare(other),
        }
    }

    /// Compares the value with another, in the order of values.
    pub(crate) fn compare(&self, other: &BorrowedOrOwned<'_>) -> Ordering
        ensures { result ≡ value_cmp self.now other.now }
    {
        match &other.ownership {
            Ownership::Borrowed(value) => self.compare_with(value),
            Ownership::Owned(value) => self.compare_with(&value.as_ref()),
        }
    }

    /// Compares another value, such as a member of a set, with this one: the reverse of [`BorrowedOrOwned::compare`].
    pub(crate) fn compared_by(&self, other: &Value) -> Ordering
        ensures { result ≡ value_cmp other.now self.now }
    {
        match &self.ownership {
            Ownership::Borrowed(value) => other.as_ref().compare(value),
            Ownership::Owned(value) => other.as_ref().compare(&value.as_ref()),
        }
    }

    /// Returns the boolean, or `None` if the value is of another kind. Does not allocate.
    pub fn as_boolean(&self) -> Option<bool>
        ensures { result ≡ boolean_in self.now }
    {
        match self.kind() {
            BorrowedKind::Boolean(truth) => Some(truth),
            _ => None,
        }
    }

    /// Returns the value, copied if it was borrowed, or `NoMemory`.
    pub fn into_value(self, alloc: Global) -> Result<Value, NoMemory>
        ensures { IfOk result (λ v. v ≡ self.entry) }
    {
        let BorrowedOrOwned { ownership } = self;
        match ownership {
            Ownership::Borrowed(value) => value.copy(alloc),
            Ownership::Owned(value) => Ok(value),
        }
    }
}
