//! The limits of the ancestor cache: how large it may be, and when it is rebuilt instead of updated incrementally.

use ancestor_closure::CacheBudget;

/// The number of cached ancestors that the limit allows for each entity, stored or deleted: for `n` of them the cache
/// may have `ANCESTORS_PER_ENTITY * n` ancestors, and [`EXTRA_ANCESTORS`] more.
const ANCESTORS_PER_ENTITY: usize = 64;

/// The part of the limit on cached ancestors that does not depend on the store.
const EXTRA_ANCESTORS: usize = 1_000_000;

/// The number of updates of entities, in addition to one for each entity, between a build that found too many ancestors
/// and the next attempt: 15,625. A build ends once it has found too many ancestors, so it writes some 64 ancestors for
/// each of these updates.
const CHANGES_BEFORE_RETRY: usize = EXTRA_ANCESTORS / ANCESTORS_PER_ENTITY;

/// The number of ancestors that may be written or visited after [`RebuildRule::begin`], in addition to those that a
/// rebuild writes, before the cache is dropped.
const EXTRA_WRITES: usize = 10_000;

/// The counts that decide when the ancestor cache is rebuilt or dropped. No contract and no answer depends on them.
#[derive(Clone, Copy)]
pub(crate) struct RebuildRule {
    /// How many ancestors the cache has, how many it may have, and how many were written or visited since the last
    /// [`Self::begin`].
    pub(crate) budget: CacheBudget,
    /// The number of updates of entities before the next attempt to build the cache.
    pause: usize,
}

impl RebuildRule {
    /// Creates the counts of a store without a cache.
    pub(crate) fn new() -> RebuildRule {
        RebuildRule {
            budget: CacheBudget::new(0),
            pause: 0,
        }
    }

    /// Prepares the counts when a put begins or a message ends, and returns whether to build the cache now.
    ///
    /// `is_present` is whether the cache is present; if it is, the result is false. `entities` is the number of the
    /// store's entries of entities, including tombstones.
    pub(crate) fn begin(&mut self, is_present: bool, entities: usize) -> bool {
        let most = entities
            .saturating_mul(ANCESTORS_PER_ENTITY)
            .saturating_add(EXTRA_ANCESTORS);
        if is_present {
            self.budget.begin(most);
            return false;
        }
        if self.pause > 0 {
            return false;
        }
        self.budget = CacheBudget::new(most);
        true
    }

    /// Ends a build of the cache. If the build found too many ancestors, the next attempt is postponed.
    pub(crate) fn end(&mut self, entities: usize) {
        if self.budget.is_short() {
            self.pause = entities.saturating_add(CHANGES_BEFORE_RETRY);
        }
    }

    /// Counts an update of an entity, whether or not it wins, towards the next attempt to build the cache.
    pub(crate) fn count_change(&mut self) {
        self.pause = self.pause.saturating_sub(1);
    }

    /// Returns whether over [`EXTRA_WRITES`] ancestors more were written or visited since the last [`Self::begin`] than
    /// a rebuild would write.
    pub(crate) fn costs_more_than_rebuild(&self, entities: usize) -> bool {
        let anew = self.budget.kept().saturating_add(entities);
        self.budget.written() > anew.saturating_add(EXTRA_WRITES)
    }
}
