//! The policy index of a store: built from its entries, and updated incrementally after a change of a policy.
ghost use Rattle.std.specs.Prelude.{◌≡◌, ◌⊎◌, ℕ, List, None, cond, IsTrue, IfOk, IfSome, OnOk, OnErr, IfErr};
ghost use Rattle.std.specs.Prelude.{◌++◌, ◌∷◌, [], string_bytes};
ghost use Rattle.std.specs.Option.{option_copied};
ghost use Rattle.std.specs.String.{string_cmp};
ghost use Rattle.std.specs.Str.{bytes_eq};
ghost use Rattle.scope_index.specs.Keys.{kept_at};
ghost use Rattle.stamped_store.specs.EntryOrder.{plain_entry, greater};
ghost use Rattle.stamped_store.specs.Store.{abstract_store, store_of, updates, concrete_entries, policy_name};
ghost use Rattle.stamped_store.specs.Store.{KeepsOtherNames};
ghost use Rattle.stamped_store.specs.JoinMaps.{taken, value_at_text};
ghost use Rattle.site_store.specs.Indexed.{policy_at, policy_in, AreIndexed};
ghost use Rattle.site_store.specs.inner.IndexUpdating.{AreIndexedBut, noted};
ghost use Rattle.site_store.specs.Winning.{StoredWins};

use crate::winning::stored_wins;
use plain::NoMemory;
use scope_index::{Policy, ScopeIndex};
use stamped_store::{Entry, StampedStore};
use std::alloc::Global;

/// Returns the parsed policy of an id, or `None` if the store has no text for it. Does not allocate.
fn policy_under<'s, E: Drop>(store: &'s StampedStore<Policy, E>, id: &str) -> Option<&'s Policy>
    ensures { option_copied result ≡ policy_at store.now.policies id.now }
{
    match store.get_policy(id) {
        Some(entry) => match &entry.body {
            Some(text) => Some(&text.read),
            None => None,
        },
        None => None,
    }
}

/// Returns the index, updated after the policy of `id` changed, or `None` if there was no index or an allocation
/// failed.
fn updated_index<E: Drop>(
    index: Option<ScopeIndex>,
    store: &StampedStore<Policy, E>,
    id: &str,
) -> Option<ScopeIndex>
    requires { IfSome index (AreIndexedBut id.now store.now.policies) }
    ensures { IfSome result (AreIndexed store.now.policies) }
{
    let mut index = index?;
    match policy_under(store, id) {
        Some(policy) => match index.add(id, policy) {
            Ok(()) => Some(index),
            Err(_) => None,
        },
        None => {
            index.remove(id);
            Some(index)
        }
    }
}

/// Adds the policy of an entry to the index, if the entry has one.
fn add_entry(index: &mut ScopeIndex, id: &str, entry: &Entry<Policy>) -> Result<(), NoMemory>
    ensures { OnOk result ((q : List ℕ) → kept_at index.new q
        ≡ cond (bytes_eq id.now q) (noted (policy_in entry.now) (kept_at index.old q)) (kept_at index.old q)) }
{
    match &entry.body {
        Some(text) => index.add(id, &text.read),
        None => Ok(()),
    }
}

/// Builds the index of a store, in one pass over all names of policies.
///
/// # Errors
///
/// - `NoMemory`: an allocation failed, or a count of references to a policy would overflow.
fn index_of<E: Drop>(alloc: Global, store: &StampedStore<Policy, E>) -> Result<ScopeIndex, NoMemory>
    ensures { IfOk result (AreIndexed store.now.policies) }
{
    let mut index = ScopeIndex::new(alloc);
    for (id, entry) in store.policies() {
        add_entry(&mut index, id.as_str(), entry)?;
    }
    Ok(index)
}

/// Rebuilds the index if it is absent and there is memory. An index that is present must be valid for the store, and is
/// left unchanged.
pub fn rebuild_index_if_missing<E: Drop>(
    alloc: Global,
    store: &StampedStore<Policy, E>,
    index: &mut Option<ScopeIndex>,
)
    requires { IfSome index.old (AreIndexed store.now.policies) }
    ensures indexed { IfSome index.new (AreIndexed store.now.policies) }
    ensures stays { (index.old ≡ None) ⊎ (index.new ≡ index.old) }
{
    if index.is_some() {
        return;
    }
    *index = index_of(alloc, store).ok();
}

/// Returns whether joining an entry requires no update of the index: there is no index, or the stored entry stays.
fn needs_nothing<E: Drop>(
    store: &StampedStore<Policy, E>,
    index: &Option<ScopeIndex>,
    id: &str,
    entry: &Entry<Policy>,
) -> bool
    ensures { IsTrue result → (index.now ≡ None) ⊎ StoredWins (value_at_text store.now.policies id.now) entry.now }
{
    if index.is_none() {
        return true;
    }
    stored_wins(store.get_policy(id), entry)
}

/// Joins an entry at a policy's id, and updates the index without first comparing the entry with the stored one.
///
/// Intended for an entry that wins. Otherwise like [`take_policy`].
pub(crate) fn record_policy<E: Drop>(
    alloc: Global,
    store: &mut StampedStore<Policy, E>,
    index: &mut Option<ScopeIndex>,
    id: String,
    entry: Entry<Policy>,
) -> Result<(), (String, Entry<Policy>)>
    requires { IfSome index.old (AreIndexed store.old.policies) }
    ensures indexed { IfSome index.new (AreIndexed store.new.policies) }
    ensures ok { OnOk result (abstract_store store.new
        ≡ store_of (updates (abstract_store store.old) ++ (policy_name (string_bytes id), plain_entry entry) ∷ [])) }
    ensures others { OnOk result
        (KeepsOtherNames (policy_name (string_bytes id)) (abstract_store store.old) (abstract_store store.new)) }
    ensures kept { OnOk result
        (store.new ≡ concrete_entries (taken string_cmp greater store.old.policies id entry) store.old.entities) }
    ensures refused { IfErr result (λ pair. pair ≡ (id, entry)) }
    ensures err { OnErr result (store.new ≡ store.old) }
    ensures left { OnErr result (index.new ≡ index.old) }
{
    let name = String::from_str(alloc, id.as_str());
    store.take_policy(id, entry)?;
    let before = index.take();
    *index = match name {
        Ok(name) => updated_index(before, store, name.as_str()),
        Err(_) => None,
    };
    Ok(())
}

/// Joins an entry at a policy's id, and updates the index.
///
/// If the index is present, it must be valid for the store. If an allocation for the index fails, the index is dropped;
/// the entry is joined all the same.
///
/// # Errors
///
/// - Returns the id and the entry if the allocation for the entry fails. Store and index are then unchanged.
pub fn take_policy<E: Drop>(
    alloc: Global,
    store: &mut StampedStore<Policy, E>,
    index: &mut Option<ScopeIndex>,
    id: String,
    entry: Entry<Policy>,
) -> Result<(), (String, Entry<Policy>)>
    requires { IfSome index.old (AreIndexed store.old.policies) }
    ensures indexed { IfSome index.new (AreIndexed store.new.policies) }
    ensures ok { OnOk result (abstract_store store.new
        ≡ store_of (updates (abstract_store store.old) ++ (policy_name (string_bytes id), plain_entry entry) ∷ [])) }
    ensures others { OnOk result
        (KeepsOtherNames (policy_name (string_bytes id)) (abstract_store store.old) (abstract_store store.new)) }
    ensures kept { OnOk result
        (store.new ≡ concrete_entries (taken string_cmp greater store.old.policies id entry) store.old.entities) }
    ensures refused { IfErr result (λ pair. pair ≡ (id, entry)) }
    ensures err { OnErr result (store.new ≡ store.old) }
    ensures left { OnErr result (index.new ≡ index.old) }
{
    if needs_nothing(store, index, id.as_str(), &entry) {
        return store.take_policy(id, entry);
    }
    record_policy(alloc, store, index, id, entry)
}
