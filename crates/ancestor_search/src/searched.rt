//! A hierarchy that is searched at each query.
ghost use Rattle.std.specs.Prelude.{◌≡◌};
ghost use Rattle.std.specs.BTreeMap.{keys};
ghost use Rattle.ancestor_search.specs.Hierarchy.{no_parents};
ghost use Rattle.ancestor_search.specs.Search.{parents_of};
ghost use Rattle.ancestor_search.specs.Deciding.{map_has_all};
ghost use Rattle.ancestor_search.specs.SearchedMeaning.{searched_parents, searched_ancestor_test, searched_is_decided};

use crate::graph::{Edges, Graph, ParentsOf};
use crate::hierarchy::{Ancestry, Hierarchy};
use crate::named_cycle::least_cycle;
use crate::numbers::on_cycles;
use crate::search::{ancestors_of, is_ancestor, would_cycle};
use plain::NoMemory;
use std::alloc::Global;
use std::collections::BTreeMap;
use values::EntityUid;

/// A hierarchy: the parents of each stored entity, without a cache.
#[derive(Drop)]
pub struct Searched {
    alloc: Global,
    edges: Edges,
}

impl Searched {
    /// Creates an empty hierarchy.
    pub fn new(alloc: Global) -> Self
        ensures { ⟦<Searched as Ancestry>⟧.parents result ≡ no_parents }
    {
        Searched {
            alloc,
            edges: BTreeMap::new(alloc),
        }
    }
}

impl ParentsOf for Searched {
    ghost parents = { λ s. parents_of s.edges };

    fn parents_of(&self, uid: &EntityUid) -> &[EntityUid] {
        self.edges.parents_of(uid)
    }
}

impl Graph for Searched {
    ghost stored = { λ s. keys s.edges };

    ghost has_all = { λ s. map_has_all s.edges };

    fn stored_uids(&self, alloc: Global) -> Result<Vec<&EntityUid>, NoMemory> {
        self.edges.stored_uids(alloc)
    }
}

impl Ancestry for Searched {
    ghost parents = { searched_parents };

    ghost ancestor_test = { searched_ancestor_test };

    ghost ancestor_test_decides = { searched_is_decided };

    fn is_ancestor(&self, a: &EntityUid, b: &EntityUid) -> Result<bool, NoMemory> {
        is_ancestor(self.alloc, self, a, b)
    }

    fn ancestors(&self, uid: &EntityUid) -> Result<Vec<&EntityUid>, NoMemory> {
        ancestors_of(self.alloc, self, uid)
    }

    fn cyclic(&self) -> Result<Vec<&EntityUid>, NoMemory> {
        on_cycles(self.alloc, self)
    }

    fn least_cycle(&self) -> Result<Option<Vec<&EntityUid>>, NoMemory> {
        least_cycle(self.alloc, self)
    }
}

impl Hierarchy for Searched {
    fn set_parents(&mut self, uid: EntityUid, parents: Vec<EntityUid>) -> Result<(), NoMemory> {
        self.edges.insert(uid, parents)?;
        Ok(())
    }

    fn remove(&mut self, uid: &EntityUid) -> Result<(), NoMemory> {
        self.edges.remove(uid);
        Ok(())
    }

    fn would_cycle(&self, uid: &EntityUid, parents: &[EntityUid]) -> Result<bool, NoMemory> {
        would_cycle(self.alloc, self, uid, parents)
    }
}
