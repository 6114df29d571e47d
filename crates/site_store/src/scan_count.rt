//! Measures of evaluation: how many policies an answer evaluated, and whether an index may reduce their number.

use scope_index::{EntityScope, Policy};
use stamped_store::Entry;
use std::cell::Cell;

/// The number of policies that the last answer evaluated, and whether any policy passed to [`ScanCount::note`] names an
/// entity in its constraint on the principal or the resource. As long as no policy does, all are candidates, and
/// listing the candidates would cost more than it saves.
///
/// For an answer that reports a cycle, the number is that of the policies that it would otherwise have evaluated.
///
/// No contract and no answer depends on these measures.
#[derive(Drop)]
pub(crate) struct ScanCount {
    evaluated: Cell<usize>,
    names_an_entity: bool,
}

/// Returns whether the constraint of a scope on the principal or the resource names an entity.
fn names_entity(part: &EntityScope) -> bool {
    match part {
        EntityScope::Any | EntityScope::Is(_) => false,
        _ => true,
    }
}

impl ScanCount {
    /// Creates the measures of an empty store.
    pub(crate) fn new() -> ScanCount {
        ScanCount {
            evaluated: Cell::new(0),
            names_an_entity: false,
        }
    }

    /// Records whether the policy of an entry that is to be joined names an entity; a tombstone has no policy.
    pub(crate) fn note(&mut self, entry: &Entry<Policy>) {
        if let Some(text) = &entry.body {
            let scope = &*text.read.scope;
            self.names_an_entity = self.names_an_entity
                | names_entity(&scope.principal)
                | names_entity(&scope.resource);
        }
    }

    /// Returns whether an index may have fewer candidates than all policies.
    pub(crate) fn names_an_entity(&self) -> bool {
        self.names_an_entity
    }

    /// Records the number of policies that an answer evaluates.
    pub(crate) fn begin(&self, evaluated: usize) {
        self.evaluated.set(evaluated);
    }

    /// Returns how many policies the last answer evaluated; if it reports a cycle, how many it would have evaluated.
    pub(crate) fn evaluated(&self) -> usize {
        self.evaluated.get()
    }
}
