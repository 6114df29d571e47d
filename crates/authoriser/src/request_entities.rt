//! A request's three entities, with their ancestors and attributes, looked up once.
ghost use Rattle.std.specs.Prelude.{◌↔◌, ⊤, IsTrue, IfOk, MatchOption};
ghost use Rattle.evaluator.specs.ancestor_search.Hierarchy.{Parents, IsAscending, referenced};
ghost use Rattle.evaluator.specs.Operators.{Entities, entities_with};
ghost use Rattle.authoriser.specs.inner.Views.{IsWithin, HasItsAncestors, HasRequestAncestors, AllHaveTheirAncestors};
ghost use Rattle.authoriser.specs.inner.Views.{HasItsAttributes, HasRequestAttributes, AllHaveTheirAttributes};

use evaluator::{Lookup, is_among};
use plain::NoMemory;
use std::alloc::Global;
use values::{EntityUid, Record, Request};

/// An entity, with its looked-up data.
#[derive(Drop)]
pub(crate) struct KnownEntity<'a> {
    pub(crate) uid: &'a EntityUid,
    /// Its ancestors, ascending.
    pub(crate) ancestors: Vec<&'a EntityUid>,
    /// Its attributes; `None` if and only if it is not stored.
    pub(crate) attributes: Option<&'a Record>,
}

/// The three entities of a request.
#[derive(Drop)]
pub(crate) struct RequestEntities<'a> {
    pub(crate) principal: KnownEntity<'a>,
    pub(crate) action: KnownEntity<'a>,
    pub(crate) resource: KnownEntity<'a>,
}

/// Looks up an entity's ancestors and attributes. The ancestors of an entity that is not stored are not searched: it
/// has none.
fn look_up<'a, L: Lookup>(
    alloc: Global,
    store: &'a L,
    uid: &'a EntityUid,
) -> Result<KnownEntity<'a>, NoMemory>
    ensures ancestors { IfOk result (λ p. HasItsAncestors (L.parents store.now) uid.now p) }
    ensures attributes { IfOk result
        (λ p. HasItsAttributes (entities_with (L.stored store.now) (L.parents store.now)) uid.now p) }
{
    match store.attrs_of(uid) {
        Some(attributes) => Ok(KnownEntity {
            uid,
            ancestors: store.ancestors(uid)?,
            attributes: Some(attributes),
        }),
        None => Ok(KnownEntity {
            uid,
            ancestors: Vec::new(alloc),
            attributes: None,
        }),
    }
}

/// Looks up the ancestors and attributes of a request's principal, action and resource, at most once for each of these
/// three.
pub(crate) fn request_entities_of<'a, L: Lookup>(
    alloc: Global,
    store: &'a L,
    request: &'a Request,
) -> Result<RequestEntities<'a>, NoMemory>
    ensures ancestors { IfOk result (λ s. HasRequestAncestors (L.parents store.now) request.now s) }
    ensures attributes { IfOk result
        (λ s. HasRequestAttributes (entities_with (L.stored store.now) (L.parents store.now)) request.now s) }
{
    let principal = look_up(alloc, store, &request.principal)?;
    let action = look_up(alloc, store, &request.action)?;
    let resource = look_up(alloc, store, &request.resource)?;
    Ok(RequestEntities {
        principal,
        action,
        resource,
    })
}

impl KnownEntity<'_> {
    /// Returns whether this entity is `of` or a descendant of it. O(log n) for n ancestors. Does not allocate.
    pub(crate) fn is_within(&self, of: &EntityUid) -> bool
        requires { IsAscending (referenced self.now.ancestors.items) }
        ensures { IsTrue result ↔ IsWithin self.now of.now }
    {
        self.uid.same(of) || is_among(&self.ancestors, of)
    }
}

impl<'a> RequestEntities<'a> {
    /// Returns the looked-up data of an entity, if it is one of the three.
    pub(crate) fn find(&self, uid: &EntityUid) -> Option<&KnownEntity<'a>>
        ensures ancestors { MatchOption result ⊤
            (λ p. (parents : Parents) → AllHaveTheirAncestors parents self.now
            → HasItsAncestors parents uid.now p.now) }
        ensures attributes { MatchOption result ⊤
            (λ p. (W : Entities) → AllHaveTheirAttributes W self.now → HasItsAttributes W uid.now p.now) }
    {
        if self.principal.uid.same(uid) {
            return Some(&self.principal);
        }
        if self.resource.uid.same(uid) {
            return Some(&self.resource);
        }
        if self.action.uid.same(uid) {
            return Some(&self.action);
        }
        None
    }
}
