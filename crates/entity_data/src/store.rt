//! A map of entities by their uids.
ghost use Rattle.std.specs.Prelude.{◌≡◌, [], IfOk, OnErr, IsTrue, not, false, is_some};
ghost use Rattle.entity_data.specs.EntityStores.{kept_in, uids_in, Puts, entries_are_listed};

use crate::data::EntityData;
use crate::entity::Entity;
use crate::source::EntitySource;
use plain::NoMemory;
use std::alloc::Global;
use std::collections::BTreeMap;
use std::collections::btree_map::Entry;
use std::marker::Model;
use values::{EntityUid, Record};

/// Entities, each stored once by its uid. Contracts see the entries, ascending by uid; `kept_in` is the data of each
/// uid.
#[derive(Drop)]
pub struct EntityStore {
    entries: BTreeMap<EntityUid, EntityData>,
}

impl Model for EntityStore {
    ghost use Rattle.std.specs.Coded.{codes};
    ghost use Rattle.values.specs.ValueCode.{value_code};
    ghost use Rattle.entity_data.specs.EntityStores.{Entries};

    ghost Value = { Entries };

    ghost coded = { Prim.hlevel (codes, value_code) };

    ghost view = { λ s. s.entries.entries };
}

impl EntityStore {
    /// Creates an empty store. Does not allocate.
    pub fn new(alloc: Global) -> Self
        ensures { result ≡ [] }
    {
        EntityStore {
            entries: BTreeMap::new(alloc),
        }
    }

    /// Adds an entity, and returns whether it is the first of its uid. If the store already has an entity with this
    /// uid, or an allocation fails, the store is unchanged. O(log n), where n is the number of entities.
    pub fn put(&mut self, entity: Entity) -> Result<bool, NoMemory>
        ensures first { IfOk result (λ first. is_some (kept_in self.old entity.uid) ≡ not first) }
        ensures puts { IfOk result (λ first. IsTrue first → Puts (kept_in self.old) (kept_in self.new) entity) }
        ensures same { IfOk result (λ first. first ≡ false → self.new ≡ self.old) }
        ensures err { OnErr result (self.new ≡ self.old) }
    {
        let Entity {
            uid,
            attrs,
            parents,
        } = entity;
        let place = match self.entries.entry(uid)? {
            Entry::Occupied(_) => return Ok(false),
            Entry::Vacant(place) => place,
        };
        place.insert(EntityData { attrs, parents });
        Ok(true)
    }
}

impl EntitySource for EntityStore {
    ghost kept = { kept_in };

    ghost uids = { uids_in };

    ghost listed = { entries_are_listed };

    fn attrs_at(&self, uid: &EntityUid) -> Option<&Record> {
        match self.entries.get(uid) {
            Some(kept) => Some(&kept.attrs),
            None => None,
        }
    }

    fn parents_at(&self, uid: &EntityUid) -> &[EntityUid] {
        match self.entries.get(uid) {
            Some(kept) => kept.parents.members(),
            None => &[],
        }
    }

    fn kept_uids(&self, alloc: Global) -> Result<Vec<&EntityUid>, NoMemory> {
        // the contract of `len` states that the keys ascend
        let _ordered = self.entries.len();
        self.entries.keys().collect(alloc)
    }
}
