//! A memo of the ancestors of entities other than a request's principal, action and resource.
ghost use Rattle.std.specs.Prelude.{◌≡◌, [], ⊤, Contains, IfOk, MatchOption};
ghost use Rattle.authoriser.specs.inner.Views.{HasAllAncestors, HaveAllAncestors};

use evaluator::Lookup;
use plain::NoMemory;
use std::alloc::Global;
use std::cell::Cell;
use values::EntityUid;

/// An entity, with its ancestors.
#[derive(Drop)]
pub(crate) struct MemoEntry<'a> {
    pub(crate) uid: EntityUid,
    /// All of its ancestors, ascending.
    pub(crate) ancestors: Vec<&'a EntityUid>,
}

/// Memoized entities, each with its ancestors.
#[derive(Drop)]
pub(crate) struct AncestorMemo<'a> {
    pub(crate) kept: Vec<MemoEntry<'a>>,
    /// The greatest number of entities that are memoized.
    most: usize,
    /// The entity that is memoized next, if there is one. It is written while a condition is evaluated, and no answer
    /// depends on it.
    next: Cell<Option<EntityUid>>,
}

/// Looks up the ancestors of an entity.
fn look_up<'a, S: Lookup>(store: &'a S, uid: EntityUid) -> Result<MemoEntry<'a>, NoMemory>
    ensures { IfOk result (HasAllAncestors (S.parents store.now)) }
{
    let ancestors = store.ancestors(&uid)?;
    Ok(MemoEntry { uid, ancestors })
}

impl<'a> AncestorMemo<'a> {
    /// Creates an empty memo of at most `most` entities.
    pub(crate) fn new(alloc: Global, most: usize) -> AncestorMemo<'a>
        ensures { result.kept.items ≡ [] }
    {
        AncestorMemo {
            kept: Vec::new(alloc),
            most,
            next: Cell::new(None),
        }
    }

    /// Returns the memoized entity with this uid, if there is one. Otherwise, unless the memo is full, notes the uid as
    /// the next to be memoized; if the uid cannot be copied, notes none.
    pub(crate) fn find(&self, uid: &EntityUid) -> Option<&MemoEntry<'a>>
        ensures kept { MatchOption result ⊤ (λ other. Contains self.now.kept.items other.now) }
        ensures same { MatchOption result ⊤ (λ other. other.now.uid ≡ uid.now) }
    {
        for other in &self.kept {
            if other.uid.same(uid) {
                return Some(other);
            }
        }
        if self.kept.len() < self.most {
            self.next.set(uid.copy().ok());
        }
        None
    }

    /// Looks up the ancestors of an entity, and memoizes them.
    fn memoize<S: Lookup>(&mut self, store: &'a S, uid: EntityUid) -> Result<(), NoMemory>
        requires { HaveAllAncestors (S.parents store.now) self.old }
        ensures { HaveAllAncestors (S.parents store.now) self.new }
    {
        let other = look_up(store, uid)?;
        self.kept.push(other)?;
        Ok(())
    }

    /// Memoizes the ancestors of the noted entity, if there is one, unless the memo is full. If an allocation fails,
    /// nothing is memoized.
    pub(crate) fn memoize_next<S: Lookup>(&mut self, store: &'a S)
        requires { HaveAllAncestors (S.parents store.now) self.old }
        ensures { HaveAllAncestors (S.parents store.now) self.new }
    {
        if self.kept.len() < self.most {
            if let Some(uid) = self.next.replace(None) {
                let _ = self.memoize(store, uid);
            }
        }
    }
}
