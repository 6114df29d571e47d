//! A list in a `Vec`.
ghost use Rattle.std.specs.Cmp.Lexicographic.{pointwise, slice_cmp, slice_partial_cmp, lists_per, lists_equiv};
ghost use Rattle.std.specs.Cmp.Lexicographic.{lists_po, lists_total, lists_agrees, lists_ties};
ghost use Rattle.std.specs.Prelude.{◌≡◌, ◌↔◌, [], ◌∷◌, ◌++◌, ◌<◌, ◌^◌, length, slice_get, IsTrue, OnOk, OnErr, OnSome};
ghost use Rattle.std.specs.Option.{option_copied};
ghost use Rattle.std.specs.Iterator.Runs.{EveryRun, ItemsMapTo};
ghost use Rattle.std.specs.Slice.Iter.{iter_rest, iter_steps};

use crate::NoMemory;
use std::alloc::Global;
use std::cmp::Ordering;
use std::marker::Model;
use std::slice::Iter;

/// A list of items in a `Vec`. Contracts see the items in order.
#[derive(Drop)]
pub struct Items<T> {
    list: Vec<T>,
}

impl<T> Model for Items<T> {
    ghost use Rattle.std.specs.Prelude.{List};
    ghost use Rattle.std.specs.Coded.{coded_list};

    ghost Value = { List T };

    ghost coded = { coded_list T.code };

    ghost view = { λ a. a.list.items };
}

impl<T> Items<T> {
    /// Creates an empty list. Does not allocate.
    pub fn new(alloc: Global) -> Items<T>
        ensures { result ≡ [] }
    {
        Items {
            list: Vec::new(alloc),
        }
    }

    /// Creates a list of the items of a `Vec`. Does not allocate.
    pub fn from_vec(list: Vec<T>) -> Items<T>
        ensures { result ≡ list.items }
    {
        Items { list }
    }

    /// Returns the items as a `Vec`. Does not allocate.
    pub fn into_vec(self) -> Vec<T>
        ensures { result.items ≡ self }
    {
        let Items { list } = self;
        list
    }

    /// Returns the items in order, as a slice. Does not allocate.
    pub fn as_slice(&self) -> &[T]
        ensures { result.now ≡ self.now }
    {
        self.list.as_slice()
    }

    /// Returns the number of items.
    pub fn len(&self) -> usize
        ensures { result ≡ length self.now }
    {
        self.list.len()
    }

    /// Returns whether the list is empty.
    pub fn is_empty(&self) -> bool
        ensures { IsTrue result ↔ (self.now ≡ []) }
    {
        self.list.is_empty()
    }

    /// Returns the item at an index, counted from 0, or `None` past the end.
    pub fn get(&self, at: usize) -> Option<&T>
        ensures item { option_copied result ≡ slice_get self.now at }
        ensures within { OnSome result (at < length self.now) }
    {
        self.list.get(at)
    }
}

impl<T> Items<T> {
    /// Returns an iterator over the items, in order. Does not allocate.
    pub fn iter(&self) -> Iter<'_, T>
        ensures rest { iter_rest result ≡ self.now }
        ensures len { length (iter_rest result) < 2 ^ 64 }
        ensures runs { EveryRun (iter_steps {A = T}) (λ p. ItemsMapTo p (λ y. y.now) (iter_rest p.from)) }
    {
        self.list.iter()
    }
}

impl<'a, T> IntoIterator for &'a Items<T> {
    type Item = &'a T;

    type IntoIter = Iter<'a, T>;

    ghost into_iter_gives = { λ items r. (iter_rest r ≡ items.now) × (length (iter_rest r) < 2 ^ 64)
        × EveryRun (iter_steps {A = T}) (λ p. ItemsMapTo p (λ y. y.now) (iter_rest p.from)) };

    fn into_iter(self) -> Iter<'a, T> {
        self.iter()
    }
}

impl<T: Drop> Items<T> {
    /// Appends an item. After `NoMemory` the list is unchanged.
    pub fn push(&mut self, item: T) -> Result<(), NoMemory>
        ensures ok { OnOk result (self.new ≡ self.old ++ item ∷ []) }
        ensures err { OnErr result (self.new ≡ self.old) }
    {
        self.list.push(item)?;
        Ok(())
    }
}

/// Lists are equal if they have the same length and equal items at each index. Allocates only if comparing items does.
impl<T: PartialEq> PartialEq for Items<T> {
    ghost eq = { λ xs ys. pointwise T.eq xs ys };

    ghost laws = { lists_per T.laws };

    fn eq(&self, other: &Items<T>) -> bool {
        self.as_slice() == other.as_slice()
    }
}

impl<T: Eq> Eq for Items<T> {
    ghost laws = { lists_equiv T.Eq.laws };
}

/// Lists are ordered lexicographically. Allocates only if comparing items does.
impl<T: PartialOrd> PartialOrd for Items<T> {
    ghost partial_cmp = { λ xs ys. slice_partial_cmp T.partial_cmp xs ys };

    ghost laws = { lists_po T.PartialOrd.laws };

    fn partial_cmp(&self, other: &Items<T>) -> Option<Ordering> {
        self.as_slice().partial_cmp(&other.as_slice())
    }
}

impl<T: Ord> Ord for Items<T> {
    ghost cmp = { λ xs ys. slice_cmp T.cmp xs ys };

    ghost total = { lists_total T.total };

    ghost matches_partial_cmp = { λ xs ys. lists_agrees T.matches_partial_cmp xs ys };

    ghost matches_eq = { λ xs ys. lists_ties T.cmp T.matches_eq xs ys };

    fn cmp(&self, other: &Items<T>) -> Ordering {
        self.as_slice().cmp(&other.as_slice())
    }
}
