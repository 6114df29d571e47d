//! The stored entities, as the graph in which cycles are searched: actions have no outgoing edges, since no cycle
//! contains an action.
ghost use Rattle.entity_data.specs.inner.EntityEdges.{entity_edges, edges_are_listed};

use crate::actions::ActionSource;
use crate::source::EntitySource;
use evaluator::{Graph, ParentsOf};
use plain::NoMemory;
use std::alloc::Global;
use values::EntityUid;

/// The entities of a source with their outgoing edges; declared actions have none.
#[derive(Drop)]
pub(crate) struct StoredEdges<'a, S: EntitySource, A: ActionSource + Drop> {
    pub(crate) source: &'a S,
    pub(crate) actions: A,
}

impl<S: EntitySource, A: ActionSource + Drop> ParentsOf for StoredEdges<'_, S, A> {
    ghost parents = { λ e. entity_edges (A.declared e.actions) (S.kept e.source.now) };

    fn parents_of(&self, uid: &EntityUid) -> &[EntityUid] {
        match self.actions.parents_of_action(uid) {
            Some(_) => &[],
            None => self.source.parents_at(uid),
        }
    }
}

impl<S: EntitySource, A: ActionSource + Drop> Graph for StoredEdges<'_, S, A> {
    ghost stored = { λ e. S.uids e.source.now };

    ghost has_all = { λ e.
        edges_are_listed (A.declared e.actions) (S.kept e.source.now) (S.uids e.source.now) (S.listed e.source.now) };

    fn stored_uids(&self, alloc: Global) -> Result<Vec<&EntityUid>, NoMemory> {
        self.source.kept_uids(alloc)
    }
}
