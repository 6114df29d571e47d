//! A budget for the ancestor cache.

use plain::NoMemory;

/// A budget: how many ancestors all lists of a cache together have, how many they may have, and how many were written
/// or visited.
///
/// It is a measure: no contract mentions it, and no answer depends on it. An exceeded budget is reported as a failed
/// allocation. Lists that were counted before an error stay counted, although no cache has them, so after an error the
/// budget must not count another list.
#[derive(Clone, Copy)]
pub struct CacheBudget {
    // The greatest number of ancestors that all lists together may have.
    most: usize,
    // The number of ancestors that all lists together have.
    kept: usize,
    // How many ancestors were written or visited since the last `begin`, plus one for each written list.
    written: usize,
    // Whether a list was rejected.
    is_short: bool,
}

impl CacheBudget {
    /// Creates a budget of `most` ancestors, with none counted.
    pub fn new(most: usize) -> CacheBudget {
        CacheBudget {
            most,
            kept: 0,
            written: 0,
            is_short: false,
        }
    }

    /// Sets the budget to `most` ancestors, and restarts the count of written and visited ancestors.
    pub fn begin(&mut self, most: usize) {
        self.most = most;
        self.written = 0;
    }

    /// Counts a list of `after` ancestors, which replaces a list of `before` ancestors.
    ///
    /// # Errors
    ///
    /// - `NoMemory`: the budget would be exceeded. The list is not counted.
    pub fn write(&mut self, before: usize, after: usize) -> Result<(), NoMemory> {
        let kept = self.kept.saturating_sub(before).saturating_add(after);
        if kept > self.most {
            self.is_short = true;
            return Err(NoMemory);
        }
        self.kept = kept;
        self.written = self.written.saturating_add(after).saturating_add(1);
        Ok(())
    }

    /// Adds the length `list` of a visited list to the count of written and visited ancestors.
    pub fn count_visited(&mut self, list: usize) {
        self.written = self.written.saturating_add(list);
    }

    /// Returns how many ancestors all lists together have.
    pub fn kept(&self) -> usize {
        self.kept
    }

    /// Returns how many ancestors were written or visited since [`begin`](CacheBudget::begin), plus one for each
    /// written list.
    pub fn written(&self) -> usize {
        self.written
    }

    /// Returns whether a list was rejected because the budget would have been exceeded.
    pub fn is_short(&self) -> bool {
        self.is_short
    }
}
