//! The ancestor cache of a store: rebuilt, or updated incrementally after a change of an entity.
ghost use Rattle.std.specs.Prelude.{◌≡◌, ◌⊎◌, ◌++◌, ◌∷◌, [], None, IsTrue, IfOk, IfErr, IfSome, OnOk, OnErr};
ghost use Rattle.values.specs.Names.{uid_cmp};
ghost use Rattle.site_meaning.specs.schema.Views.{schema_view};
ghost use Rattle.stamped_store.specs.EntryOrder.{plain_entry, greater};
ghost use Rattle.stamped_store.specs.Store.{abstract_store, store_of, updates, concrete_entries, entity_name};
ghost use Rattle.stamped_store.specs.Store.{KeepsOtherNames};
ghost use Rattle.stamped_store.specs.JoinMaps.{taken, value_at};
ghost use Rattle.site_store.specs.CacheValidity.{AreAncestorsOf};
ghost use Rattle.site_store.specs.inner.Updating.{AreAncestorsBut};
ghost use Rattle.site_store.specs.Winning.{StoredWins};

use crate::rebuild_rule::RebuildRule;
use crate::winning::stored_wins;
use ancestor_closure::AncestorCache;
use plain::NoMemory;
use scope_index::Policy;
use site_meaning::{Entity, Schema, StoredEntities, entity_data_under};
use stamped_store::{Entry, StampedStore};
use std::alloc::Global;
use values::EntityUid;

/// Builds the ancestor cache of a store, by one search for each entity and each action, and one for the cyclic
/// entities.
///
/// # Errors
///
/// - `NoMemory`: an allocation failed, or there would be more ancestors than the budget of `rebuild_rule` allows.
pub(crate) fn ancestors_of(
    alloc: Global,
    schema: &Schema,
    store: &StampedStore<Policy, Entity>,
    rebuild_rule: &mut RebuildRule,
) -> Result<AncestorCache, NoMemory>
    ensures { IfOk result (AreAncestorsOf (schema_view schema.now) store.now.entities) }
{
    let entities = StoredEntities::of(store);
    let world = entity_data_under(alloc, &entities, schema);
    AncestorCache::of_graph(alloc, &world, &mut rebuild_rule.budget)
}

/// Updates the cache after the entity `uid` changed. After an error the cache must not be used.
///
/// # Errors
///
/// - `NoMemory`: an allocation failed, or there would be more ancestors than the budget of `rebuild_rule` allows.
fn update_cache(
    alloc: Global,
    ancestors: &mut AncestorCache,
    schema: &Schema,
    store: &StampedStore<Policy, Entity>,
    rebuild_rule: &mut RebuildRule,
    uid: &EntityUid,
) -> Result<(), NoMemory>
    requires { AreAncestorsBut uid.now (schema_view schema.now) store.now.entities ancestors.old }
    ensures { OnOk result (AreAncestorsOf (schema_view schema.now) store.now.entities ancestors.new) }
{
    let entities = StoredEntities::of(store);
    let world = entity_data_under(alloc, &entities, schema);
    ancestors.follow(&world, uid, &mut rebuild_rule.budget)
}

/// Returns the cache, updated after the entity `uid` changed, or `None` if there was no cache or the update failed.
///
/// The cache is also dropped if its updates for one put or message have cost much more than a rebuild
/// (`RebuildRule::costs_more_than_rebuild`).
fn updated_cache(
    alloc: Global,
    ancestors: Option<AncestorCache>,
    schema: &Schema,
    store: &StampedStore<Policy, Entity>,
    rebuild_rule: &mut RebuildRule,
    uid: &EntityUid,
) -> Option<AncestorCache>
    requires { IfSome ancestors (AreAncestorsBut uid.now (schema_view schema.now) store.now.entities) }
    ensures { IfSome result (AreAncestorsOf (schema_view schema.now) store.now.entities) }
{
    let mut ancestors = ancestors?;
    update_cache(alloc, &mut ancestors, schema, store, rebuild_rule, uid).ok()?;
    if rebuild_rule.costs_more_than_rebuild(store.entities().len()) {
        return None;
    }
    Some(ancestors)
}

/// Returns whether joining an entry requires no update of the cache: there is no cache, or the stored entry stays.
fn needs_nothing(
    store: &StampedStore<Policy, Entity>,
    ancestors: &Option<AncestorCache>,
    uid: &EntityUid,
    entry: &Entry<Entity>,
) -> bool
    ensures { IsTrue result
        → (ancestors.now ≡ None) ⊎ StoredWins (value_at uid_cmp store.now.entities uid.now) entry.now }
{
    if ancestors.is_none() {
        return true;
    }
    stored_wins(store.get_entity(uid), entry)
}

/// Joins an entry at an entity's uid, and then updates the cache, or drops the cache if the update fails.
fn join_and_update_cache(
    alloc: Global,
    schema: &Schema,
    store: &mut StampedStore<Policy, Entity>,
    ancestors: &mut Option<AncestorCache>,
    rebuild_rule: &mut RebuildRule,
    uid: EntityUid,
    entry: Entry<Entity>,
) -> Result<(), (EntityUid, Entry<Entity>)>
    requires { IfSome ancestors.old (AreAncestorsOf (schema_view schema.now) store.old.entities) }
    ensures updated_cache { IfSome ancestors.new (AreAncestorsOf (schema_view schema.now) store.new.entities) }
    ensures ok { OnOk result (abstract_store store.new
        ≡ store_of (updates (abstract_store store.old) ++ (entity_name uid, plain_entry entry) ∷ [])) }
    ensures others { OnOk result
        (KeepsOtherNames (entity_name uid) (abstract_store store.old) (abstract_store store.new)) }
    ensures kept { OnOk result
        (store.new ≡ concrete_entries store.old.policies (taken uid_cmp greater store.old.entities uid entry)) }
    ensures refused { IfErr result (λ pair. pair ≡ (uid, entry)) }
    ensures err { OnErr result (store.new ≡ store.old) }
{
    let name = uid.copy();
    store.take_entity(uid, entry)?;
    let before = ancestors.take();
    *ancestors = match name {
        Ok(name) => updated_cache(alloc, before, schema, store, rebuild_rule, &name),
        Err(_) => None,
    };
    Ok(())
}

/// Joins an entry at an entity's uid, and updates the cache.
///
/// The cache is dropped if its update fails, or if the updates for one message have cost much more than a rebuild
/// (`RebuildRule::costs_more_than_rebuild`). The entry is joined all the same.
///
/// # Errors
///
/// - Returns the uid and the entry if the allocation for the entry fails. The store is then unchanged.
pub(crate) fn take_entity(
    alloc: Global,
    schema: &Schema,
    store: &mut StampedStore<Policy, Entity>,
    ancestors: &mut Option<AncestorCache>,
    rebuild_rule: &mut RebuildRule,
    uid: EntityUid,
    entry: Entry<Entity>,
) -> Result<(), (EntityUid, Entry<Entity>)>
    requires { IfSome ancestors.old (AreAncestorsOf (schema_view schema.now) store.old.entities) }
    ensures updated_cache { IfSome ancestors.new (AreAncestorsOf (schema_view schema.now) store.new.entities) }
    ensures ok { OnOk result (abstract_store store.new
        ≡ store_of (updates (abstract_store store.old) ++ (entity_name uid, plain_entry entry) ∷ [])) }
    ensures others { OnOk result
        (KeepsOtherNames (entity_name uid) (abstract_store store.old) (abstract_store store.new)) }
    ensures kept { OnOk result
        (store.new ≡ concrete_entries store.old.policies (taken uid_cmp greater store.old.entities uid entry)) }
    ensures refused { IfErr result (λ pair. pair ≡ (uid, entry)) }
    ensures err { OnErr result (store.new ≡ store.old) }
{
    rebuild_rule.count_change();
    if needs_nothing(store, ancestors, &uid, &entry) {
        return store.take_entity(uid, entry);
    }
    join_and_update_cache(alloc, schema, store, ancestors, rebuild_rule, uid, entry)
}

/// Joins an entry at an entity's uid, and updates the cache without first comparing the entry with the stored one.
///
/// Intended for an entry that wins. Otherwise like [`take_entity`].
pub(crate) fn record_entity(
    alloc: Global,
    schema: &Schema,
    store: &mut StampedStore<Policy, Entity>,
    ancestors: &mut Option<AncestorCache>,
    rebuild_rule: &mut RebuildRule,
    uid: EntityUid,
    entry: Entry<Entity>,
) -> Result<(), (EntityUid, Entry<Entity>)>
    requires { IfSome ancestors.old (AreAncestorsOf (schema_view schema.now) store.old.entities) }
    ensures updated_cache { IfSome ancestors.new (AreAncestorsOf (schema_view schema.now) store.new.entities) }
    ensures ok { OnOk result (abstract_store store.new
        ≡ store_of (updates (abstract_store store.old) ++ (entity_name uid, plain_entry entry) ∷ [])) }
    ensures others { OnOk result
        (KeepsOtherNames (entity_name uid) (abstract_store store.old) (abstract_store store.new)) }
    ensures kept { OnOk result
        (store.new ≡ concrete_entries store.old.policies (taken uid_cmp greater store.old.entities uid entry)) }
    ensures refused { IfErr result (λ pair. pair ≡ (uid, entry)) }
    ensures err { OnErr result (store.new ≡ store.old) }
{
    rebuild_rule.count_change();
    join_and_update_cache(alloc, schema, store, ancestors, rebuild_rule, uid, entry)
}
