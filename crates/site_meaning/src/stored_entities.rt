//! The entities of a store as a source of entity data.
ghost use Rattle.std.specs.Prelude.{◌≡◌, IfOk};
ghost use Rattle.std.specs.Option.{option_copied};
ghost use Rattle.entity_hierarchy.specs.ancestor_search.Hierarchy.{IsAscending, referenced};
ghost use Rattle.std.specs.List.Sorted.{IsStrictlySortedBy};
ghost use Rattle.std.specs.Map.{keys_of};
ghost use Rattle.values.specs.Names.{uid_cmp};
ghost use Rattle.site_meaning.specs.inner.Listing.{uids_with_text};
ghost use Rattle.site_meaning.specs.TextsRead.{entity_at, uids_read};
ghost use Rattle.site_meaning.specs.StoreMeaning.{data_in};
ghost use Rattle.site_meaning.specs.Listed.{entities_listed};

use entity_hierarchy::{Entity, EntitySource, Policy};
use plain::NoMemory;
use stamped_store::StampedStore;
use std::alloc::Global;
use values::{EntityUid, Record};

/// The parsed entities of a store, as a source of entity data. A deleted name has no entity.
#[derive(Clone, Copy)]
pub struct StoredEntities<'s> {
    /// The store.
    pub store: &'s StampedStore<Policy, Entity>,
}

impl<'s> StoredEntities<'s> {
    /// Creates the source of this store's entities. Does not allocate.
    pub fn of(store: &'s StampedStore<Policy, Entity>) -> Self
        ensures { result.store.now ≡ store.now }
    {
        StoredEntities { store }
    }
}

/// Returns the parsed entity of a uid, or `None` if the store has no text for it. Does not allocate.
fn entity_in<'s>(store: &'s StampedStore<Policy, Entity>, uid: &EntityUid) -> Option<&'s Entity>
    ensures { option_copied result ≡ entity_at store.now.entities uid.now }
{
    match store.get_entity(uid) {
        Some(entry) => match &entry.body {
            Some(text) => Some(&text.read),
            None => None,
        },
        None => None,
    }
}

impl EntitySource for StoredEntities<'_> {
    ghost kept = { λ s. data_in (entity_at s.store.now.entities) };

    ghost uids = { λ s. uids_read s.store.now.entities };

    ghost listed = { λ s. entities_listed s.store.now.entities };

    fn attrs_at(&self, uid: &EntityUid) -> Option<&Record> {
        match entity_in(self.store, uid) {
            Some(entity) => Some(&entity.attrs),
            None => None,
        }
    }

    fn parents_at(&self, uid: &EntityUid) -> &[EntityUid] {
        match entity_in(self.store, uid) {
            Some(entity) => entity.parents.members(),
            None => &[],
        }
    }

    fn kept_uids(&self, alloc: Global) -> Result<Vec<&EntityUid>, NoMemory> {
        uids_in(alloc, self.store)
    }
}

/// Returns the uids of the entities whose entries have a text, in the order of the entries.
fn uids_with_text<'s>(
    alloc: Global,
    store: &'s StampedStore<Policy, Entity>,
) -> Result<Vec<&'s EntityUid>, NoMemory>
    ensures found { IfOk result (λ us. referenced us.items ≡ uids_with_text store.now.entities) }
    ensures ordered { IsStrictlySortedBy uid_cmp (keys_of store.now.entities) }
{
    let mut found = Vec::new(alloc);
    for (uid, entry) in store.entities() {
        if entry.body.is_some() {
            found.push(uid)?;
        }
    }
    Ok(found)
}

/// Returns the uids of a store's entities, in ascending order.
fn uids_in<'s>(
    alloc: Global,
    store: &'s StampedStore<Policy, Entity>,
) -> Result<Vec<&'s EntityUid>, NoMemory>
    ensures all { IfOk result (λ us. referenced us.items ≡ uids_read store.now.entities) }
    ensures ascending { IfOk result (λ us. IsAscending (referenced us.items)) }
{
    uids_with_text(alloc, store)
}
