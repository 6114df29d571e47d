//! The environment of an evaluation: a request, and the stored entities.
ghost use Rattle.std.specs.Prelude.{◌≡◌, option_map};
ghost use Rattle.values.specs.declared.request.Request.{Request};
ghost use Rattle.evaluator.specs.VariableFields.{fields_under};

use crate::lookup::Lookup;
use ancestor_search::Ancestry;
use grammar_core::Variable;
use plain::NoMemory;
use values::{EntityUid, Record, Request};

/// The environment of an evaluation: a request, and the stored entities. An implementation that has looked up the
/// request's entities can return their attributes by variable, without a search by uid.
pub trait EvalEnv: Lookup {
    /// The request.
    ghost request_of: { Self → Request };

    /// Returns the request.
    fn request(&self) -> &Request
        ensures { result.now ≡ request_of self.now };

    /// Returns the fields of a variable: those of the context, or the attributes of the variable's entity. Returns
    /// `None` if and only if that entity is not stored. Does not allocate.
    fn fields_of(&self, variable: Variable) -> Option<&Record>
        ensures { option_map (λ r. r.now) result ≡ fields_under (Self.stored self.now) (request_of self.now) variable };
}

/// A request with the stored entities. Each access to an attribute of a variable's entity looks up the entity by its
/// uid.
#[derive(Drop)]
pub struct RequestEnv<'a, L: Lookup> {
    /// The request.
    pub request: &'a Request,
    /// The stored entities.
    pub store: &'a L,
}

impl<L: Lookup> Ancestry for RequestEnv<'_, L> {
    ghost parents = { λ s. L.parents s.store.now };

    ghost ancestor_test = { λ s. L.ancestor_test s.store.now };

    ghost ancestor_test_decides = { λ s. L.ancestor_test_decides s.store.now };

    fn is_ancestor(&self, a: &EntityUid, b: &EntityUid) -> Result<bool, NoMemory> {
        self.store.is_ancestor(a, b)
    }

    fn ancestors(&self, uid: &EntityUid) -> Result<Vec<&EntityUid>, NoMemory> {
        self.store.ancestors(uid)
    }

    fn cyclic(&self) -> Result<Vec<&EntityUid>, NoMemory> {
        self.store.cyclic()
    }

    fn least_cycle(&self) -> Result<Option<Vec<&EntityUid>>, NoMemory> {
        self.store.least_cycle()
    }
}

impl<L: Lookup> Lookup for RequestEnv<'_, L> {
    ghost stored = { λ s. L.stored s.store.now };

    fn attrs_of(&self, uid: &EntityUid) -> Option<&Record> {
        self.store.attrs_of(uid)
    }
}

impl<L: Lookup> EvalEnv for RequestEnv<'_, L> {
    ghost request_of = { λ s. s.request.now };

    fn request(&self) -> &Request {
        self.request
    }

    fn fields_of(&self, variable: Variable) -> Option<&Record> {
        match variable {
            Variable::Principal => self.store.attrs_of(&self.request.principal),
            Variable::Action => self.store.attrs_of(&self.request.action),
            Variable::Resource => self.store.attrs_of(&self.request.resource),
            Variable::Context => Some(&self.request.context),
        }
    }
}
