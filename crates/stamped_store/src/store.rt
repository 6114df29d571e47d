//! The store of a site: at most one entry for each name of a policy or an entity.
ghost use Rattle.std.specs.Prelude.{◌≡◌, ◌↔◌, ◌<◌, ◌+◌, ◌^◌, ◌++◌, ◌∷◌, [], length, max, String, string_bytes, IsTrue};
ghost use Rattle.std.specs.Prelude.{OnOk, OnErr, IfOk, IfErr};
ghost use Rattle.std.specs.declared.alloc.Global.{Global};
ghost use Rattle.std.specs.Option.{option_copied, option_map};
ghost use Rattle.std.specs.FinMap.{get};
ghost use Rattle.std.specs.Map.{keys_of};
ghost use Rattle.std.specs.Map.Iter.{ShowsInOrder, deref_pair};
ghost use Rattle.std.specs.String.{string_cmp};
ghost use Rattle.std.specs.List.Sorted.{IsStrictlySortedBy};
ghost use Rattle.values.specs.Names.{uid_cmp};
ghost use Rattle.stamped_store.specs.EntryOrder.{plain_entry, greater, entry_at_most};
ghost use Rattle.stamped_store.specs.Greatest.{greatest_count};
ghost use Rattle.stamped_store.specs.Abstraction.{greatest_kept};
ghost use Rattle.stamped_store.specs.JoinMaps.{value_at, value_at_text, taken, IsBelow};
ghost use Rattle.stamped_store.specs.Store.{abstract_store, abstract_updates, store_of, updates, concrete_entries};
ghost use Rattle.stamped_store.specs.Store.{joined_entries};
ghost use Rattle.stamped_store.specs.Store.{first_entries};
ghost use Rattle.stamped_store.specs.Store.{policy_name, entity_name, KeepsOtherNames, IsStoreBelow, IsStoreJoin};
ghost use Rattle.stamped_store.specs.Store.{first_names, issue};

use crate::{Entry, Short, SiteName, Stamp, Stamped};
use std::alloc::Global;
use std::collections::btree_map::Iter;
use std::marker::Model;
use values::EntityUid;

/// The greatest count that a stamp may have in a message or from a local command: 10^18.
pub const COUNT_MAX: u64 = 1_000_000_000_000_000_000;

/// The store of a site: the entries of policies by id, and those of entities by uid. The texts in the entries have
/// parsed forms: of type `P` for policies, and of type `E` for entities.
///
/// Contracts see these entries. The entries represent an abstract store, which has at most one entry at each name. In
/// the order of names, policies come before entities.
#[derive(Drop)]
pub struct StampedStore<P: Drop, E: Drop> {
    policies: Stamped<String, Entry<P>>,
    entities: Stamped<EntityUid, Entry<E>>,
    // The greatest count of all entries, so that the next stamp is known in constant time.
    greatest: u64,
}

impl<P: Drop, E: Drop> Model for StampedStore<P, E> {
    ghost use Rattle.stamped_store.specs.Store.{StoreEntries, IsOrderedAndCounted, concrete_entries};

    ghost Value = { StoreEntries P E };

    ghost view = { λ s. concrete_entries s.policies s.entities };

    ghost invariant = { λ s. IsOrderedAndCounted (concrete_entries s.policies s.entities) s.greatest };
}

impl<P: Drop, E: Drop> StampedStore<P, E> {
    /// Creates an empty store. Does not allocate.
    pub fn new(alloc: Global) -> Self
        ensures kept { result ≡ concrete_entries [] [] }
        ensures empty { abstract_store result ≡ store_of [] }
    {
        StampedStore {
            policies: Stamped::new(alloc),
            entities: Stamped::new(alloc),
            greatest: 0,
        }
    }

    /// Returns the entry of the policy of this id, if there is one. O(log n). Does not allocate.
    pub fn get_policy(&self, id: &str) -> Option<&Entry<P>>
        ensures kept { option_copied result ≡ value_at_text self.now.policies id.now }
        ensures shown { option_map plain_entry (option_copied result) ≡ get (abstract_store self.now)
            (policy_name id.now) }
    {
        self.policies.get_str(id)
    }

    /// Returns the entry of the entity of this uid, if there is one. O(log n). Does not allocate.
    pub fn get_entity(&self, uid: &EntityUid) -> Option<&Entry<E>>
        ensures kept { option_copied result ≡ value_at uid_cmp self.now.entities uid.now }
        ensures shown { option_map plain_entry (option_copied result)
            ≡ get (abstract_store self.now) (entity_name uid.now) }
    {
        self.entities.get(uid)
    }

    /// Returns the entries of policies, ascending by the bytes of the id.
    pub fn policies(&self) -> Iter<'_, String, Entry<P>>
        ensures rest { result ≡ self.now.policies }
        ensures runs { ShowsInOrder (deref_pair {K = String Global} {X = Entry P}) }
        ensures ordered { IsStrictlySortedBy string_cmp (keys_of self.now.policies) }
        ensures in_order { updates (abstract_store self.now) ≡ abstract_updates self.now }
    {
        self.policies.iter()
    }

    /// Returns the entries of entities, ascending by uid.
    pub fn entities(&self) -> Iter<'_, EntityUid, Entry<E>>
        ensures rest { result ≡ self.now.entities }
        ensures runs { ShowsInOrder (deref_pair {K = EntityUid} {X = Entry E}) }
        ensures ordered { IsStrictlySortedBy uid_cmp (keys_of self.now.entities) }
        ensures in_order { updates (abstract_store self.now) ≡ abstract_updates self.now }
    {
        self.entities.iter()
    }

    /// Returns the greatest count in the whole store, 0 if it is empty. O(1).
    pub fn greatest_count(&self) -> u64
        ensures { result ≡ greatest_count (abstract_store self.now) }
    {
        self.greatest
    }

    /// Returns the stamp of the next local command at a site. Its count is one more than the greatest count in the
    /// whole store, and its site is `site`. The greatest count must be less than [`COUNT_MAX`].
    pub fn issue(&self, site: SiteName) -> Stamp
        requires { greatest_count (abstract_store self.now) < COUNT_MAX }
        ensures { result ≡ issue (abstract_store self.now) site }
    {
        Stamp {
            count: self.greatest + 1,
            site,
        }
    }

    /// Joins an entry with the one at a policy's id; adds it if there is none. Every other name keeps its entry. O(log
    /// n).
    ///
    /// If an allocation fails, returns the id and the entry, and the store is unchanged.
    pub fn take_policy(&mut self, id: String, entry: Entry<P>) -> Result<(), (String, Entry<P>)>
        ensures ok { OnOk result (abstract_store self.new
            ≡ store_of (updates (abstract_store self.old) ++ (policy_name (string_bytes id), plain_entry entry) ∷ [])) }
        ensures others { OnOk result
            (KeepsOtherNames (policy_name (string_bytes id)) (abstract_store self.old) (abstract_store self.new)) }
        ensures kept { OnOk result
            (self.new ≡ concrete_entries (taken string_cmp greater self.old.policies id entry) self.old.entities) }
        ensures refused { IfErr result (λ pair. pair ≡ (id, entry)) }
        ensures err { OnErr result (self.new ≡ self.old) }
    {
        self.greatest = take_counted(&mut self.policies, id, entry, self.greatest)?;
        Ok(())
    }

    /// Joins an entry with the one at an entity's uid; adds it if there is none. Every other name keeps its entry.
    /// O(log n).
    ///
    /// If an allocation fails, returns the uid and the entry, and the store is unchanged.
    pub fn take_entity(
        &mut self,
        uid: EntityUid,
        entry: Entry<E>,
    ) -> Result<(), (EntityUid, Entry<E>)>
        ensures ok { OnOk result (abstract_store self.new
            ≡ store_of (updates (abstract_store self.old) ++ (entity_name uid, plain_entry entry) ∷ [])) }
        ensures others { OnOk result
            (KeepsOtherNames (entity_name uid) (abstract_store self.old) (abstract_store self.new)) }
        ensures kept { OnOk result
            (self.new ≡ concrete_entries self.old.policies (taken uid_cmp greater self.old.entities uid entry)) }
        ensures refused { IfErr result (λ pair. pair ≡ (uid, entry)) }
        ensures err { OnErr result (self.new ≡ self.old) }
    {
        self.greatest = take_counted(&mut self.entities, uid, entry, self.greatest)?;
        Ok(())
    }

    /// Replaces this store by its join with the other store.
    ///
    /// # Errors
    ///
    /// - `Short`: an allocation failed. The entries of the first `taken` names of the other store were joined
    ///   (policies come before entities), and the rest of it is dropped.
    pub fn merge(&mut self, other: Self) -> Result<(), Short>
        ensures ok { OnOk result
            (IsStoreJoin (abstract_store self.old) (abstract_store other) (abstract_store self.new)) }
        ensures ok_kept { OnOk result (self.new ≡ joined_entries self.old other) }
        ensures short { IfErr result (λ s. IsStoreJoin (abstract_store self.old)
            (first_names s.taken (abstract_store other)) (abstract_store self.new)) }
        ensures short_kept { IfErr result (λ s. self.new ≡ joined_entries self.old (first_entries s.taken other)) }
        ensures cut { IfErr result (λ s. s.taken < length (updates (abstract_store other))) }
    {
        let StampedStore {
            policies,
            entities,
            greatest,
        } = other;
        let before = policies.len();
        if let Err(short) = self.policies.merge(policies) {
            self.greatest = greatest_of_both(&self.policies, &self.entities);
            return Err(short);
        }
        if let Err(short) = self.entities.merge(entities) {
            self.greatest = greatest_of_both(&self.policies, &self.entities);
            return Err(short_behind(before, short));
        }
        self.greatest = greater_count(self.greatest, greatest);
        Ok(())
    }

    /// Returns whether the other store has, at each name of this store, an entry that is at least as great. Does not
    /// allocate.
    pub fn below(&self, other: &Self) -> bool
        ensures { IsTrue result ↔ IsStoreBelow (abstract_store self.now) (abstract_store other.now) }
    {
        all_below(&self.policies, &other.policies) && all_below(&self.entities, &other.entities)
    }
}

// Helpers of the store's methods.

// Joins an entry at a key, and returns the greater of `greatest` and the entry's count. If an allocation fails, returns
// the key and the entry.
fn take_counted<K: Ord + Drop, P: Drop>(
    entries: &mut Stamped<K, Entry<P>>,
    key: K,
    entry: Entry<P>,
    greatest: u64,
) -> Result<u64, (K, Entry<P>)>
    ensures ok { OnOk result (entries.new ≡ taken K.cmp greater entries.old key entry) }
    ensures count { IfOk result (λ count. count ≡ max greatest entry.stamp.count) }
    ensures refused { IfErr result (λ pair. pair ≡ (key, entry)) }
    ensures err { OnErr result (entries.new ≡ entries.old) }
{
    let count = entry.stamp.count;
    entries.take(key, entry)?;
    Ok(greater_count(greatest, count))
}

// Returns whether `second` has, at each key of `first`, an entry that is at least as great.
fn all_below<K: Ord + Drop, P: Drop>(
    first: &Stamped<K, Entry<P>>,
    second: &Stamped<K, Entry<P>>,
) -> bool
    ensures { IsTrue result ↔ IsBelow K.cmp entry_at_most first.now second.now }
{
    first.below(second)
}

// Returns the error of a merge in which an allocation failed after `before` policies and `short.taken` entities were
// joined.
fn short_behind(before: usize, short: Short) -> Short
    requires { before + short.taken < 2 ^ 64 }
    ensures { result.taken ≡ before + short.taken }
{
    Short {
        taken: before + short.taken,
    }
}

// Returns the greater of two counts.
fn greater_count(a: u64, b: u64) -> u64
    ensures { result ≡ max a b }
{
    a.max(b)
}

// Returns the greatest count of the two maps, 0 if they are empty.
fn greatest_of_both<P: Drop, E: Drop>(
    policies: &Stamped<String, Entry<P>>,
    entities: &Stamped<EntityUid, Entry<E>>,
) -> u64
    ensures { result ≡ max (greatest_kept policies.now) (greatest_kept entities.now) }
{
    greatest_of(policies).max(greatest_of(entities))
}

// Returns the greatest count in the map, 0 if it is empty.
fn greatest_of<K: Ord + Drop, P: Drop>(entries: &Stamped<K, Entry<P>>) -> u64
    ensures { result ≡ greatest_kept entries.now }
{
    let mut greatest: u64 = 0;
    for (_, entry) in entries.iter() {
        greatest = greatest.max(entry.stamp.count);
    }
    greatest
}
