//! The entity data of a decision.
ghost use Rattle.std.specs.Prelude.{◌≡◌, Option, Some, None, option_map};
ghost use Rattle.evaluator.specs.ancestor_search.Decided.{reaches};
ghost use Rattle.entity_data.specs.Entities.{with_actions, uids_with, attributes_of, kept_parents};
ghost use Rattle.entity_data.specs.Listing.{all_listed, all_decided};

use crate::actions::ActionSource;
use crate::source::EntitySource;
use crate::stored_edges::StoredEdges;
use crate::uids::with_actions;
use evaluator::{
    Ancestry, Graph, Lookup, ParentsOf, ancestors_of, is_ancestor, least_cycle, on_cycles,
};
use plain::NoMemory;
use std::alloc::Global;
use std::marker::Model;
use values::{EntityUid, Record};

/// The entities of a source, and the declared actions. An action has no attributes.
///
/// Contracts see the source and the actions; `with_actions` defines the entities of both.
#[derive(Drop)]
pub struct Entities<'a, S: EntitySource, A: ActionSource + Drop> {
    alloc: Global,
    /// The source and the actions, as the graph in which cycles are searched.
    stored_edges: StoredEdges<'a, S, A>,
    /// The attributes of each action: an empty record.
    nothing: Record,
}

impl<'a, S: EntitySource, A: ActionSource + Drop> Model for Entities<'a, S, A> {
    ghost use Rattle.std.specs.Prelude.{◌≡◌, []};

    ghost Value = { S × A };

    ghost view = { λ w. (w.stored_edges.source.now, w.stored_edges.actions) };

    ghost invariant = { λ w. w.nothing ≡ [] };
}

impl<'a, S: EntitySource, A: ActionSource + Drop> Entities<'a, S, A> {
    /// Creates the entity data of the entities in `source` and of the actions `actions`. Does not allocate.
    pub fn new(alloc: Global, source: &'a S, actions: A) -> Self
        ensures { result ≡ (source.now, actions) }
    {
        Entities {
            alloc,
            stored_edges: StoredEdges { source, actions },
            nothing: Record::new(alloc),
        }
    }

    /// Returns the parents of an action; `None` if it is not declared.
    fn action(&self, uid: &EntityUid) -> Option<&[EntityUid]>
        ensures { option_map (λ us. us.now) result ≡ A.declared self.now.1 uid.now }
    {
        self.stored_edges.actions.parents_of_action(uid)
    }
}

impl<S: EntitySource, A: ActionSource + Drop> ParentsOf for Entities<'_, S, A> {
    ghost parents = { λ w u. kept_parents (with_actions (A.declared w.1) (S.kept w.0) u) };

    fn parents_of(&self, uid: &EntityUid) -> &[EntityUid] {
        match self.action(uid) {
            Some(parents) => parents,
            None => self.stored_edges.source.parents_at(uid),
        }
    }
}

impl<S: EntitySource, A: ActionSource + Drop> Graph for Entities<'_, S, A> {
    ghost stored = { λ w. uids_with (A.uids w.1) (S.uids w.0) };

    ghost has_all = { λ w.
        all_listed (A.declared w.1) (A.uids w.1) (A.listed w.1) (S.kept w.0) (S.uids w.0) (S.listed w.0) };

    fn stored_uids(&self, alloc: Global) -> Result<Vec<&EntityUid>, NoMemory> {
        with_actions(
            self.stored_edges.source.kept_uids(alloc)?,
            &self.stored_edges.actions,
        )
    }
}

impl<S: EntitySource, A: ActionSource + Drop> Ancestry for Entities<'_, S, A> {
    ghost parents = { λ w u. kept_parents (with_actions (A.declared w.1) (S.kept w.0) u) };

    ghost ancestor_test = { λ w. reaches (λ u. kept_parents (with_actions (A.declared w.1) (S.kept w.0) u))
        (uids_with (A.uids w.1) (S.uids w.0)) };

    ghost ancestor_test_decides = { λ w.
        all_decided (A.declared w.1) (A.uids w.1) (A.listed w.1) (S.kept w.0) (S.uids w.0) (S.listed w.0) };

    fn is_ancestor(&self, a: &EntityUid, b: &EntityUid) -> Result<bool, NoMemory> {
        is_ancestor(self.alloc, self, a, b)
    }

    fn ancestors(&self, uid: &EntityUid) -> Result<Vec<&EntityUid>, NoMemory> {
        ancestors_of(self.alloc, self, uid)
    }

    fn cyclic(&self) -> Result<Vec<&EntityUid>, NoMemory> {
        self.stored_edges.actions.are_a_hierarchy();
        on_cycles(self.alloc, &self.stored_edges)
    }

    fn least_cycle(&self) -> Result<Option<Vec<&EntityUid>>, NoMemory> {
        self.stored_edges.actions.are_a_hierarchy();
        least_cycle(self.alloc, &self.stored_edges)
    }
}

impl<S: EntitySource, A: ActionSource + Drop> Lookup for Entities<'_, S, A> {
    ghost stored = { λ w u. attributes_of (with_actions (A.declared w.1) (S.kept w.0) u) };

    fn attrs_of(&self, uid: &EntityUid) -> Option<&Record> {
        match self.action(uid) {
            Some(_) => Some(&self.nothing),
            None => self.stored_edges.source.attrs_at(uid),
        }
    }
}
