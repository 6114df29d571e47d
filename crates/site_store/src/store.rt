//! The store with its caches: changes, answers, and the check for cycles.
ghost use Rattle.std.specs.Prelude.{◌≡◌, ◌++◌, ◌∷◌, [], IfOk, OnOk, OnErr, IfErr};
ghost use Rattle.std.specs.Prelude.{string_bytes, true, false};
ghost use Rattle.std.specs.String.{string_cmp};
ghost use Rattle.values.specs.Names.{uid_cmp};
ghost use Rattle.site_meaning.specs.schema.Views.{schema_view};
ghost use Rattle.stamped_store.specs.EntryOrder.{plain_entry, greater};
ghost use Rattle.stamped_store.specs.Reading.{AreEntriesRead};
ghost use Rattle.stamped_store.specs.Store.{abstract_store, store_of, updates, concrete_entries};
ghost use Rattle.stamped_store.specs.Store.{policy_name, entity_name, KeepsOtherNames};
ghost use Rattle.stamped_store.specs.JoinMaps.{taken};
ghost use Rattle.site_meaning.specs.StoreMeaning.{IsAnswerOver, MakesCycle, MakesNoCycle};
ghost use Rattle.site_store.specs.StoreViews.{AreValidCaches};

use crate::ancestors::{ancestors_of, record_entity, take_entity};
use crate::answering::is_in_order;
use crate::index::{rebuild_index_if_missing, record_policy, take_policy};
use crate::rebuild_rule::RebuildRule;
use crate::scan_count::ScanCount;
use crate::stored_world::StoredWorld;
use ancestor_closure::AncestorCache;
use plain::{NoMemory, Shared};
use scope_index::{Policy, ScopeIndex};
use site_meaning::{Answer, Entity, Schema, StoredEntities, entity_data_under};
use stamped_store::{Entry, Readings, StampedStore};
use std::alloc::Global;
use std::marker::Model;
use values::{EntityUid, Request};

/// A store under a schema, with its caches. Contracts see the schema and the store.
#[derive(Drop)]
pub struct IndexedStore {
    alloc: Global,
    schema: Shared<Schema>,
    store: StampedStore<Policy, Entity>,
    index: Option<ScopeIndex>,
    ancestors: Option<AncestorCache>,
    rebuild_rule: RebuildRule,
    scan_count: ScanCount,
}

impl Model for IndexedStore {
    ghost use Rattle.std.specs.Coded.{codes};
    ghost use Rattle.site_meaning.specs.schema_types.contracts.cedar.CedarType as cedar;
    ghost use Rattle.values.specs.ValueCode.{value_code};
    ghost use Rattle.scope_index.specs.grammar_core.contracts.expr.Expr as expr;
    ghost use Rattle.std.specs.Option.{IfSome};
    ghost use Rattle.site_meaning.specs.schema.Views.{schema_view};
    ghost use Rattle.site_store.specs.StoreViews.{StoreView, AreValidCaches};

    ghost Value = { StoreView };

    ghost coded = { Prim.hlevel (codes, cedar.the_row.coded, value_code, expr.the_row.coded) };

    ghost view = { λ s. record { schema = s.schema; kept = s.store } };

    ghost invariant = { λ s. AreValidCaches (schema_view s.schema) s.store s.index s.ancestors };
}

/// Rebuilds the caches that are absent, if there is memory; the ancestor cache only if `rebuild_rule` allows it.
fn rebuild_absent(
    alloc: Global,
    schema: &Schema,
    store: &StampedStore<Policy, Entity>,
    index: &mut Option<ScopeIndex>,
    ancestors: &mut Option<AncestorCache>,
    rebuild_rule: &mut RebuildRule,
)
    requires { AreValidCaches (schema_view schema.now) store.now index.old ancestors.old }
    ensures { AreValidCaches (schema_view schema.now) store.now index.new ancestors.new }
{
    rebuild_index_if_missing(alloc, store, index);
    let entities = store.entities().len();
    if rebuild_rule.begin(ancestors.is_some(), entities) {
        *ancestors = ancestors_of(alloc, schema, store, rebuild_rule).ok();
        rebuild_rule.end(entities);
    }
}

impl IndexedStore {
    /// Creates an empty store under a schema, with an index but without an ancestor cache. Does not allocate.
    ///
    /// The ancestor cache includes the schema's actions, so building it allocates. The first [`Self::record_policy`],
    /// [`Self::record_entity`] or [`Self::rebuild`] builds it, if there is memory and it would not be too large.
    pub fn new(alloc: Global, schema: Shared<Schema>) -> Self
        ensures { result ≡ record { schema = schema; kept = concrete_entries [] [] } }
    {
        IndexedStore {
            alloc,
            schema,
            store: StampedStore::new(alloc),
            index: Some(ScopeIndex::new(alloc)),
            ancestors: None,
            rebuild_rule: RebuildRule::new(),
            scan_count: ScanCount::new(),
        }
    }

    /// Returns the schema.
    pub fn schema(&self) -> &Schema
        ensures { result.now ≡ self.now.schema }
    {
        &self.schema
    }

    /// Returns the store without its caches.
    pub fn store(&self) -> &StampedStore<Policy, Entity>
        ensures { result.now ≡ self.now.kept }
    {
        &self.store
    }

    /// Joins an entry at a policy's id. Every other name keeps its entry.
    ///
    /// If an allocation for the index fails, the index is dropped; the entry is joined all the same.
    ///
    /// # Errors
    ///
    /// - Returns the id and the entry if the allocation for the entry fails. The store is then unchanged.
    pub fn take_policy(
        &mut self,
        id: String,
        entry: Entry<Policy>,
    ) -> Result<(), (String, Entry<Policy>)>
        ensures ok { OnOk result (abstract_store self.new.kept
            ≡ store_of (updates (abstract_store self.old.kept)
            ++ (policy_name (string_bytes id), plain_entry entry) ∷ [])) }
        ensures others { OnOk result (KeepsOtherNames (policy_name (string_bytes id)) (abstract_store self.old.kept)
            (abstract_store self.new.kept)) }
        ensures kept { OnOk result (self.new.kept
            ≡ concrete_entries (taken string_cmp greater self.old.kept.policies id entry) self.old.kept.entities) }
        ensures refused { IfErr result (λ pair. pair ≡ (id, entry)) }
        ensures err { OnErr result (self.new.kept ≡ self.old.kept) }
        ensures same { self.new.schema ≡ self.old.schema }
    {
        self.scan_count.note(&entry);
        take_policy(self.alloc, &mut self.store, &mut self.index, id, entry)
    }

    /// Joins an entry at an entity's uid. Every other name keeps its entry.
    ///
    /// The ancestor cache is dropped if an allocation for it fails, if it would be too large, or once the incremental
    /// updates for one message have cost much more than a rebuild. The entry is joined all the same. Call
    /// [`Self::rebuild`] after the last update to rebuild the cache.
    ///
    /// # Errors
    ///
    /// - Returns the uid and the entry if the allocation for the entry fails. The store is then unchanged.
    pub fn take_entity(
        &mut self,
        uid: EntityUid,
        entry: Entry<Entity>,
    ) -> Result<(), (EntityUid, Entry<Entity>)>
        ensures ok { OnOk result (abstract_store self.new.kept
            ≡ store_of (updates (abstract_store self.old.kept)
            ++ (entity_name uid, plain_entry entry) ∷ [])) }
        ensures others { OnOk result (KeepsOtherNames (entity_name uid) (abstract_store self.old.kept)
            (abstract_store self.new.kept)) }
        ensures kept { OnOk result (self.new.kept
            ≡ concrete_entries self.old.kept.policies (taken uid_cmp greater self.old.kept.entities uid entry)) }
        ensures refused { IfErr result (λ pair. pair ≡ (uid, entry)) }
        ensures err { OnErr result (self.new.kept ≡ self.old.kept) }
        ensures same { self.new.schema ≡ self.old.schema }
    {
        take_entity(
            self.alloc,
            &self.schema,
            &mut self.store,
            &mut self.ancestors,
            &mut self.rebuild_rule,
            uid,
            entry,
        )
    }

    /// Rebuilds the absent caches as [`Self::rebuild`] does, and joins an entry at a policy's id.
    ///
    /// Intended for an entry that wins. Otherwise like [`Self::take_policy`].
    pub fn record_policy(
        &mut self,
        id: String,
        entry: Entry<Policy>,
    ) -> Result<(), (String, Entry<Policy>)>
        ensures ok { OnOk result (abstract_store self.new.kept
            ≡ store_of (updates (abstract_store self.old.kept)
            ++ (policy_name (string_bytes id), plain_entry entry) ∷ [])) }
        ensures others { OnOk result (KeepsOtherNames (policy_name (string_bytes id)) (abstract_store self.old.kept)
            (abstract_store self.new.kept)) }
        ensures kept { OnOk result (self.new.kept
            ≡ concrete_entries (taken string_cmp greater self.old.kept.policies id entry) self.old.kept.entities) }
        ensures refused { IfErr result (λ pair. pair ≡ (id, entry)) }
        ensures err { OnErr result (self.new.kept ≡ self.old.kept) }
        ensures same { self.new.schema ≡ self.old.schema }
    {
        self.scan_count.note(&entry);
        rebuild_absent(
            self.alloc,
            &self.schema,
            &self.store,
            &mut self.index,
            &mut self.ancestors,
            &mut self.rebuild_rule,
        );
        record_policy(self.alloc, &mut self.store, &mut self.index, id, entry)
    }

    /// Rebuilds the absent caches as [`Self::rebuild`] does, and joins an entry at an entity's uid.
    ///
    /// Intended for an entry that wins. Otherwise like [`Self::take_entity`].
    pub fn record_entity(
        &mut self,
        uid: EntityUid,
        entry: Entry<Entity>,
    ) -> Result<(), (EntityUid, Entry<Entity>)>
        ensures ok { OnOk result (abstract_store self.new.kept
            ≡ store_of (updates (abstract_store self.old.kept)
            ++ (entity_name uid, plain_entry entry) ∷ [])) }
        ensures others { OnOk result (KeepsOtherNames (entity_name uid) (abstract_store self.old.kept)
            (abstract_store self.new.kept)) }
        ensures kept { OnOk result (self.new.kept
            ≡ concrete_entries self.old.kept.policies (taken uid_cmp greater self.old.kept.entities uid entry)) }
        ensures refused { IfErr result (λ pair. pair ≡ (uid, entry)) }
        ensures err { OnErr result (self.new.kept ≡ self.old.kept) }
        ensures same { self.new.schema ≡ self.old.schema }
    {
        rebuild_absent(
            self.alloc,
            &self.schema,
            &self.store,
            &mut self.index,
            &mut self.ancestors,
            &mut self.rebuild_rule,
        );
        record_entity(
            self.alloc,
            &self.schema,
            &mut self.store,
            &mut self.ancestors,
            &mut self.rebuild_rule,
            uid,
            entry,
        )
    }

    /// Rebuilds the absent caches, if there is memory, with one attempt for each. No entry changes.
    ///
    /// Intended for the end of a message. After a build of the ancestor cache that found too many ancestors, the next
    /// build waits for as many updates of entities as the store had entries of entities, and 15,625 more. An update is
    /// counted even if it loses.
    pub fn rebuild(&mut self)
        ensures { self.new ≡ self.old }
    {
        rebuild_absent(
            self.alloc,
            &self.schema,
            &self.store,
            &mut self.index,
            &mut self.ancestors,
            &mut self.rebuild_rule,
        );
    }

    /// Returns the parts of this store over which requests are decided. `entities` must be the entities of this store.
    fn lend_world<'a, 's>(&'a self, entities: &'a StoredEntities<'s>) -> StoredWorld<'a, 's>
        requires { entities.now.store.now ≡ self.now.kept }
        ensures { result ≡ self.now }
    {
        let schema = &*self.schema;
        let searched = entity_data_under(self.alloc, entities, schema);
        StoredWorld {
            alloc: self.alloc,
            schema,
            store: &self.store,
            index: &self.index,
            ancestors: &self.ancestors,
            searched,
        }
    }

    /// Returns the answer to a request over the store: over the policies and entities that its texts are parsed as,
    /// and the actions of the schema.
    ///
    /// A value of `R` gives the relations between texts and what they may be parsed as. If these relate each text of
    /// the store to its parsed value, the result is an answer over the store by these relations. If the index is
    /// present and there is memory, only its candidates are evaluated.
    ///
    /// # Errors
    ///
    /// - `NoMemory`: an allocation failed.
    ///
    /// Source: Cedar reference guide, "Authorization".
    pub fn answer<R: Readings<Policy, Entity>>(&self, request: &Request) -> Result<Answer, NoMemory>
        ensures { IfOk result (λ a. (r : R) → AreEntriesRead (R.reads_policy r) (R.reads_entity r) self.now.kept
            → IsAnswerOver (R.reads_policy r) (R.reads_entity r) (schema_view self.now.schema)
            (abstract_store self.now.kept) request.now a) }
    {
        is_in_order(&self.store);
        let entities = StoredEntities::of(&self.store);
        let world = self.lend_world(&entities);
        world.answer(request, &self.scan_count)
    }

    /// Returns whether putting an entity into the store would make the entity cyclic, whatever the store now has at the
    /// entity's uid. Cycles of other entities do not matter.
    ///
    /// `R` is as in [`Self::answer`].
    ///
    /// # Errors
    ///
    /// - `NoMemory`: an allocation failed.
    pub fn would_cycle<R: Readings<Policy, Entity>>(
        &self,
        entity: &Entity,
    ) -> Result<bool, NoMemory>
        ensures yes { IfOk result (λ yes. yes ≡ true → (r : R)
            → AreEntriesRead (R.reads_policy r) (R.reads_entity r) self.now.kept
            → MakesCycle (R.reads_entity r) (schema_view self.now.schema) (abstract_store self.now.kept) entity.now) }
        ensures no { IfOk result (λ yes. yes ≡ false → (r : R)
            → AreEntriesRead (R.reads_policy r) (R.reads_entity r) self.now.kept
            → MakesNoCycle (R.reads_entity r) (schema_view self.now.schema) (abstract_store self.now.kept)
            entity.now) }
    {
        is_in_order(&self.store);
        let entities = StoredEntities::of(&self.store);
        let world = self.lend_world(&entities);
        world.would_cycle(entity)
    }

    /// Drops both caches, as failed allocations do; for tests and measurements alone. No entry changes.
    pub fn drop_caches(&mut self)
        ensures { self.new ≡ self.old }
    {
        self.index = None;
        self.ancestors = None;
    }

    /// Returns whether the ancestor cache is present, and whether the index is; for tests alone.
    pub fn caches_present(&self) -> (bool, bool) {
        (self.ancestors.is_some(), self.index.is_some())
    }

    /// Returns how many policies the last answer evaluated; if it reports a cycle, how many it would have evaluated
    /// without one. For tests alone.
    pub fn evaluated(&self) -> usize {
        self.scan_count.evaluated()
    }
}
