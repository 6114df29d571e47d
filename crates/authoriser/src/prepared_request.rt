//! A request with its entities looked up.
ghost use Rattle.std.specs.Prelude.{◌≡◌, IfOk};
ghost use Rattle.authoriser.specs.inner.Views.{HasRequestAncestors};

use crate::ancestor_memo::AncestorMemo;
use crate::request_entities::{RequestEntities, request_entities_of};
use evaluator::{Ancestry, EvalEnv, Lookup, is_among};
use grammar_core::Variable;
use plain::NoMemory;
use std::alloc::Global;
use std::marker::Model;
use values::{EntityUid, Record, Request};

/// A request over stored entities, with the ancestors and the attributes of its three entities looked up.
///
/// The ancestors of these three need no search, and the attributes of a variable no look-up. The ancestors of some
/// other entities are memoized between the evaluations of policies. Contracts see the stored entities and the request.
#[derive(Drop)]
pub struct PreparedRequest<'a, L: Lookup> {
    alloc: Global,
    store: &'a L,
    request: &'a Request,
    entities: RequestEntities<'a>,
    others: AncestorMemo<'a>,
}

impl<'a, L: Lookup> Model for PreparedRequest<'a, L> {
    ghost use Rattle.values.specs.declared.request.Request.{Request};
    ghost use Rattle.std.specs.Coded.{codes};
    ghost use Rattle.values.specs.ValueCode.{value_code};
    ghost use Rattle.evaluator.specs.Operators.{entities_with};
    ghost use Rattle.authoriser.specs.inner.Views.{HaveDataOf};

    ghost Value = { L × Request };

    ghost coded = { Prim.hlevel (codes, value_code) };

    ghost view = { λ k. (k.store.now, k.request.now) };

    ghost invariant = { λ k.
        HaveDataOf (entities_with (L.stored k.store.now) (L.parents k.store.now)) k.request.now k.entities k.others };
}

impl<'a, L: Lookup> PreparedRequest<'a, L> {
    /// Looks up the ancestors and the attributes of the request's three entities, at most once each.
    ///
    /// A decision then memoizes the ancestors of at most `most_others` other entities, each after a condition has used
    /// its ancestors. This helps if the store has to search for ancestors. The only error is `NoMemory`.
    pub fn of(
        alloc: Global,
        store: &'a L,
        request: &'a Request,
        most_others: usize,
    ) -> Result<Self, NoMemory>
        ensures { IfOk result (λ k. k ≡ (store.now, request.now)) }
    {
        let entities = request_entities_of(alloc, store, request)?;
        Ok(PreparedRequest {
            alloc,
            store,
            request,
            entities,
            others: AncestorMemo::new(alloc, most_others),
        })
    }

    /// Returns the request's three entities, with their looked-up data.
    pub(crate) fn request_entities(&self) -> &RequestEntities<'a>
        ensures { HasRequestAncestors (L.parents self.now.0) self.now.1 result.now }
    {
        &self.entities
    }

    /// Memoizes the ancestors of an entity that is neither one of the three nor memoized: the last one whose ancestors
    /// were queried since the previous call. No-op if there is no such entity or the memo is full. If an allocation
    /// fails, nothing is memoized.
    pub(crate) fn memoize_next(&mut self)
        ensures { self.new ≡ self.old }
    {
        self.others.memoize_next(self.store);
    }
}

/// Returns a copy of a list of references.
fn copied<'a>(alloc: Global, uids: &[&'a EntityUid]) -> Result<Vec<&'a EntityUid>, NoMemory>
    ensures { IfOk result (λ copies. copies.items ≡ uids.now) }
{
    uids.iter().copied().collect(alloc)
}

impl<L: Lookup> Ancestry for PreparedRequest<'_, L> {
    ghost parents = { λ s. L.parents s.0 };

    ghost ancestor_test = { λ s. L.ancestor_test s.0 };

    ghost ancestor_test_decides = { λ s. L.ancestor_test_decides s.0 };

    fn is_ancestor(&self, a: &EntityUid, b: &EntityUid) -> Result<bool, NoMemory> {
        match self.entities.find(b) {
            Some(known) => Ok(is_among(&known.ancestors, a)),
            None => match self.others.find(b) {
                Some(other) => Ok(is_among(&other.ancestors, a)),
                None => self.store.is_ancestor(a, b),
            },
        }
    }

    fn ancestors(&self, uid: &EntityUid) -> Result<Vec<&EntityUid>, NoMemory> {
        match self.entities.find(uid) {
            Some(known) => copied(self.alloc, &known.ancestors),
            None => match self.others.find(uid) {
                Some(other) => copied(self.alloc, &other.ancestors),
                None => self.store.ancestors(uid),
            },
        }
    }

    fn cyclic(&self) -> Result<Vec<&EntityUid>, NoMemory> {
        self.store.cyclic()
    }

    fn least_cycle(&self) -> Result<Option<Vec<&EntityUid>>, NoMemory> {
        self.store.least_cycle()
    }
}

impl<L: Lookup> Lookup for PreparedRequest<'_, L> {
    ghost stored = { λ s. L.stored s.0 };

    fn attrs_of(&self, uid: &EntityUid) -> Option<&Record> {
        match self.entities.find(uid) {
            Some(known) => known.attributes,
            None => self.store.attrs_of(uid),
        }
    }
}

impl<L: Lookup> EvalEnv for PreparedRequest<'_, L> {
    ghost request_of = { λ s. s.1 };

    fn request(&self) -> &Request {
        self.request
    }

    fn fields_of(&self, variable: Variable) -> Option<&Record> {
        match variable {
            Variable::Principal => self.entities.principal.attributes,
            Variable::Action => self.entities.action.attributes,
            Variable::Resource => self.entities.resource.attributes,
            Variable::Context => Some(&self.request.context),
        }
    }
}
