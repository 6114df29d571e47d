//! A store under a schema, over which requests are decided.
ghost use Rattle.std.specs.Prelude.{◌≡◌, ◌↔◌, [], IsTrue, IfOk};
ghost use Rattle.ancestor_closure.specs.ancestor_search.Decided.{reaches};
ghost use Rattle.ancestor_closure.specs.ancestor_search.Hierarchy.{IsOnCycle, with_parents};
ghost use Rattle.site_meaning.specs.entity_data.Entities.{uids_with};
ghost use Rattle.site_meaning.specs.entity_data.Listing.{all_decided};
ghost use Rattle.site_meaning.specs.entity_hierarchy.Entities.{actions_under, action_uids, actions_are_listed};
ghost use Rattle.site_meaning.specs.StoreMeaning.{data_in};
ghost use Rattle.site_meaning.specs.TextsRead.{entity_at, uids_read};
ghost use Rattle.site_meaning.specs.Listed.{entities_listed};
ghost use Rattle.site_store.specs.StoreViews.{world_stored};

use ancestor_closure::{AncestorCache, Ancestry, would_cycle};
use plain::NoMemory;
use scope_index::{Policy, ScopeIndex};
use site_meaning::{Entities, Entity, Lookup, Schema, StoredEntities};
use stamped_store::StampedStore;
use std::alloc::Global;
use std::marker::Model;
use values::{EntityUid, Record};

/// A store under a schema, with its index and its ancestor cache if they are present.
///
/// With the ancestor cache, ancestors are looked up, and nothing is searched if there is no cycle; without the cache,
/// the hierarchy is searched in place. Contracts see the schema and the store.
#[derive(Drop)]
pub(crate) struct StoredWorld<'a, 's> {
    pub(crate) alloc: Global,
    pub(crate) schema: &'a Schema,
    pub(crate) store: &'a StampedStore<Policy, Entity>,
    pub(crate) index: &'a Option<ScopeIndex>,
    pub(crate) ancestors: &'a Option<AncestorCache>,
    /// The entities of the store and the actions of the schema, to be searched.
    pub(crate) searched: Entities<'a, StoredEntities<'s>>,
}

impl<'a, 's> Model for StoredWorld<'a, 's> {
    ghost use Rattle.std.specs.Coded.{codes};
    ghost use Rattle.site_meaning.specs.schema_types.contracts.cedar.CedarType as cedar;
    ghost use Rattle.values.specs.ValueCode.{value_code};
    ghost use Rattle.scope_index.specs.grammar_core.contracts.expr.Expr as expr;
    ghost use Rattle.site_store.specs.StoreViews.{StoreView};
    ghost use Rattle.site_store.specs.inner.Worlds.{IsStoredWorld};

    ghost Value = { StoreView };

    ghost coded = { Prim.hlevel (codes, cedar.the_row.coded, value_code, expr.the_row.coded) };

    ghost view = { λ w. record { schema = w.schema.now; kept = w.store.now } };

    ghost invariant = { λ w.
        IsStoredWorld w.schema.now w.store.now w.index.now w.ancestors.now w.searched };
}

impl StoredWorld<'_, '_> {
    /// Returns whether an entity is an action of the schema without parents. A schema mostly has few actions, so this
    /// is faster than a look-up in the cache of all entities.
    fn is_top_action(&self, uid: &EntityUid) -> bool
        ensures { IsTrue result → (world_stored self.now).parents uid.now ≡ [] }
    {
        match self.schema.action_parents(uid) {
            Some(parents) => parents.is_empty(),
            None => false,
        }
    }

    /// Returns whether `entity` would be cyclic if it were stored with its parents.
    ///
    /// With the ancestor cache, takes two look-ups for each parent, and does not allocate.
    ///
    /// # Errors
    ///
    /// - `NoMemory`: an allocation failed.
    pub(crate) fn would_cycle(&self, entity: &Entity) -> Result<bool, NoMemory>
        ensures { let changed = with_parents (world_stored self.now).parents entity.now.uid entity.now.parents in
            IfOk result (λ yes. IsTrue yes ↔ IsOnCycle changed entity.now.uid) }
    {
        let parents = entity.parents.members();
        match self.ancestors {
            Some(kept) => Ok(kept.would_cycle(&entity.uid, parents)),
            None => would_cycle(self.alloc, &self.searched, &entity.uid, parents),
        }
    }
}

impl Ancestry for StoredWorld<'_, '_> {
    ghost parents = { λ s. (world_stored s).parents };

    ghost ancestor_test = { λ s.
        reaches (world_stored s).parents (uids_with (action_uids s.schema) (uids_read s.kept.entities)) };

    ghost ancestor_test_decides = { λ s.
        all_decided (actions_under s.schema) (action_uids s.schema) (actions_are_listed s.schema)
        (data_in (entity_at s.kept.entities)) (uids_read s.kept.entities) (entities_listed s.kept.entities) };

    fn is_ancestor(&self, a: &EntityUid, b: &EntityUid) -> Result<bool, NoMemory> {
        match self.ancestors {
            Some(kept) => Ok(kept.has_ancestor(a, b)),
            None => self.searched.is_ancestor(a, b),
        }
    }

    fn ancestors(&self, uid: &EntityUid) -> Result<Vec<&EntityUid>, NoMemory> {
        match self.ancestors {
            Some(kept) => {
                if self.is_top_action(uid) {
                    return Ok(Vec::new(self.alloc));
                }
                kept.ancestors(uid)
            }
            None => self.searched.ancestors(uid),
        }
    }

    fn cyclic(&self) -> Result<Vec<&EntityUid>, NoMemory> {
        match self.ancestors {
            Some(kept) => kept.cyclic(),
            None => self.searched.cyclic(),
        }
    }

    fn least_cycle(&self) -> Result<Option<Vec<&EntityUid>>, NoMemory> {
        match self.ancestors {
            Some(kept) => kept.least_cycle(&self.searched),
            None => self.searched.least_cycle(),
        }
    }
}

impl Lookup for StoredWorld<'_, '_> {
    ghost stored = { λ s. (world_stored s).stored };

    fn attrs_of(&self, uid: &EntityUid) -> Option<&Record> {
        self.searched.attrs_of(uid)
    }
}
