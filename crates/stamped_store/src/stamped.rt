//! Maps from keys to values with a join: each key has the join of the values that were applied to it.
ghost use Rattle.std.specs.Prelude.{◌≡◌, ◌↔◌, ◌<◌, ◌+◌, ◌^◌, [], length, take, Some, IfErr, IfOk, OnOk, OnErr, IsTrue};
ghost use Rattle.std.specs.Option.{option_copied};
ghost use Rattle.std.specs.List.Sorted.{IsStrictlySortedBy};
ghost use Rattle.std.specs.BTreeMap.{insert_entry};
ghost use Rattle.std.specs.Map.{keys_of};
ghost use Rattle.std.specs.Map.Iter.{ShowsInOrder, deref_pair};
ghost use Rattle.stamped_store.specs.Joins.{IsLeastAbove, option_below};
ghost use Rattle.stamped_store.specs.JoinMaps.{value_at, value_at_text, joined_onto, taken, all_joined, KeepsOthers};
ghost use Rattle.stamped_store.specs.JoinMaps.{IsBelow, IsJoined};

use crate::Join;
use std::alloc::Global;
use std::collections::BTreeMap;
use std::collections::btree_map::Iter;
use std::marker::Model;
use thiserror::Error;

/// A failed allocation in a merge of two maps or stores. Exactly the first `taken` entries of the other map or store
/// were joined, in the order of the keys or names, and the rest of it was dropped.
#[derive(Clone, Copy, PartialEq, Eq, Debug, Error)]
#[error("out of memory after {taken} entries")]
pub struct Short {
    /// How many entries of the other map or store were joined, from the least key or name on.
    pub taken: usize,
}

/// A map whose values are joined at each key. An entry is never removed.
///
/// Contracts see the list of the entries, in the order of the keys.
#[derive(Drop)]
pub struct Stamped<K: Ord, V: Join> {
    map: BTreeMap<K, V>,
}

impl<K: Ord, V: Join> Model for Stamped<K, V> {
    ghost use Rattle.std.specs.Prelude.{List};

    ghost Value = { List (K × V) };

    ghost view = { λ s. s.map.entries };
}

impl<K: Ord + Drop, V: Join + Drop> Stamped<K, V> {
    /// Creates an empty map. Does not allocate.
    pub fn new(alloc: Global) -> Self
        ensures { result ≡ [] }
    {
        Stamped {
            map: BTreeMap::new(alloc),
        }
    }

    // Returns how many keys have a value.
    pub(crate) fn len(&self) -> usize
        ensures len { result ≡ length self.now }
        ensures small { result < 2 ^ 63 }
        ensures ordered { IsStrictlySortedBy K.cmp (keys_of self.now) }
    {
        self.map.len()
    }

    /// Returns the value at the key, if there is one. O(log n). Does not allocate.
    pub fn get(&self, key: &K) -> Option<&V>
        ensures { option_copied result ≡ value_at K.cmp self.now key.now }
    {
        self.map.get(key)
    }

    /// Returns the entries, ascending by their keys.
    pub fn iter(&self) -> Iter<'_, K, V>
        ensures rest { result ≡ self.now }
        ensures runs { ShowsInOrder (deref_pair {K = K} {X = V}) }
        ensures ordered { IsStrictlySortedBy K.cmp (keys_of self.now) }
        ensures small { length self.now < 2 ^ 63 }
    {
        self.map.iter()
    }

    /// Joins a value with the one at a key; adds it if there is none. Every other key keeps its value. O(log n).
    ///
    /// If an allocation fails, returns the key and the value, and the map is unchanged.
    pub fn take(&mut self, key: K, value: V) -> Result<(), (K, V)>
        ensures ok { OnOk result (self.new ≡ taken K.cmp V.joined self.old key value) }
        ensures at_key { OnOk result
            (value_at K.cmp self.new key ≡ Some (joined_onto V.joined (value_at K.cmp self.old key) value)) }
        ensures others { OnOk result (KeepsOthers K.cmp key self.old self.new) }
        ensures refused { IfErr result (λ pair. pair ≡ (key, value)) }
        ensures err { OnErr result (self.new ≡ self.old) }
    {
        if let Some(held) = self.map.get_mut(&key) {
            held.join(value);
            return Ok(());
        }
        insert_new(&mut self.map, key, value)?;
        Ok(())
    }

    /// Replaces this map by the join of both: their least upper bound. Takes logarithmic time for each key of the
    /// other map, whose keys and values are moved.
    ///
    /// # Errors
    ///
    /// - `Short`: an allocation failed. The entries of the first `taken` keys of the other map were joined, and the
    ///   rest of it is dropped.
    pub fn merge(&mut self, other: Self) -> Result<(), Short>
        ensures ok { OnOk result (IsLeastAbove (IsBelow K.cmp V.is_below) self.old other self.new) }
        ensures ok_values { OnOk result (IsJoined K.cmp V.joined self.old other self.new) }
        ensures ok_entries { OnOk result (self.new ≡ all_joined K.cmp V.joined self.old other) }
        ensures short { IfErr result
            (λ s. IsLeastAbove (IsBelow K.cmp V.is_below) self.old (take s.taken other) self.new) }
        ensures short_values { IfErr result (λ s. IsJoined K.cmp V.joined self.old (take s.taken other) self.new) }
        ensures short_entries { IfErr result (λ s. self.new ≡ all_joined K.cmp V.joined self.old (take s.taken other)) }
        ensures cut { IfErr result (λ s. s.taken < length other) }
        ensures small { IfErr result (λ s. s.taken < 2 ^ 63) }
    {
        let mut taken = 0;
        for (key, value) in other.map {
            match self.take_next(taken, key, value) {
                Ok(next) => taken = next,
                Err(short) => return Err(short),
            }
        }
        Ok(())
    }

    // Joins the next value of another map, after `count` of its values were joined, and returns `count + 1`. If an
    // allocation fails, returns `Short` with `count`, and this map is unchanged.
    fn take_next(&mut self, count: usize, key: K, value: V) -> Result<usize, Short>
        requires { count < 2 ^ 63 }
        ensures count { IfOk result (λ n. n ≡ count + 1) }
        ensures ok { OnOk result (self.new ≡ taken K.cmp V.joined self.old key value) }
        ensures short { IfErr result (λ s. s.taken ≡ count) }
        ensures err { OnErr result (self.new ≡ self.old) }
    {
        match self.take(key, value) {
            Ok(()) => Ok(count + 1),
            Err(_) => Err(Short { taken: count }),
        }
    }

    /// Returns whether each key of this map has a value in the other that is at least as great. Does not allocate.
    pub fn below(&self, other: &Self) -> bool
        ensures { IsTrue result ↔ IsBelow K.cmp V.is_below self.now other.now }
    {
        for (key, value) in &self.map {
            if !other.has_above(key, value) {
                return false;
            }
        }
        true
    }

    // Returns whether this map has, at the key, a value at least as great as `value`.
    fn has_above(&self, key: &K, value: &V) -> bool
        ensures { result ≡ option_below V.is_below (Some value.now) (value_at K.cmp self.now key.now) }
    {
        match self.get(key) {
            Some(held) => value.below(held),
            None => false,
        }
    }
}

impl<V: Join + Drop> Stamped<String, V> {
    /// Returns the value at the key `text`, if there is one. O(log n). Does not allocate.
    pub fn get_str(&self, text: &str) -> Option<&V>
        ensures { option_copied result ≡ value_at_text self.now text.now }
    {
        self.map.get(text)
    }
}

// Inserts a value at a key; replaces the value that is there. If an allocation fails, returns the key and the value.
fn insert_new<K: Ord + Drop, V: Drop>(
    map: &mut BTreeMap<K, V>,
    key: K,
    value: V,
) -> Result<(), (K, V)>
    ensures ok { OnOk result (map.new.entries ≡ insert_entry K.cmp map.old.entries key value) }
    ensures refused { IfErr result (λ pair. pair ≡ (key, value)) }
    ensures err { OnErr result (map.new.entries ≡ map.old.entries) }
{
    match map.insert(key, value) {
        Ok(_) => Ok(()),
        Err(refused) => Err(refused.value),
    }
}
