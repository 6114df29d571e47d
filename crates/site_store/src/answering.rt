//! Answers over the parsed texts of a store.
ghost use Rattle.std.specs.Prelude.{◌≡◌, IfOk};
ghost use Rattle.site_meaning.specs.authoriser.Answers.{IsAnswer};
ghost use Rattle.site_meaning.specs.authoriser.Views.{named};
ghost use Rattle.stamped_store.specs.Store.{updates, abstract_store, abstract_updates};
ghost use Rattle.site_meaning.specs.TextsRead.{policies_read};
ghost use Rattle.site_store.specs.Candidates.{AreCandidates, Ascend};
ghost use Rattle.site_store.specs.StoreViews.{world_stored};

use crate::laws::candidates_suffice;
use crate::offering::offered;
use crate::scan_count::ScanCount;
use crate::stored_world::StoredWorld;
use ancestor_closure::Ancestry;
use plain::NoMemory;
use scope_index::Policy;
use site_meaning::{Answer, Entity, PreparedRequest, decide_prepared, policies_in};
use stamped_store::StampedStore;
use values::Request;

/// Proves that the entries of a store are in ascending order of names. No-op.
pub(crate) fn is_in_order(store: &StampedStore<Policy, Entity>)
    ensures { updates (abstract_store store.now) ≡ abstract_updates store.now }
{
    let _policies = store.policies();
}

impl StoredWorld<'_, '_> {
    /// Returns the policies to evaluate, in ascending order of ids: the candidates of the index or all policies.
    ///
    /// The candidates are returned if three conditions hold: the index is present, the candidates may be fewer than all
    /// policies, and there is memory to list the candidates.
    ///
    /// # Errors
    ///
    /// - `NoMemory`: an allocation failed.
    fn policies_for<A: Ancestry>(
        &self,
        request: &Request,
        ancestry: &A,
        scan_count: &ScanCount,
    ) -> Result<Vec<(&str, &Policy)>, NoMemory>
        ensures candidates { IfOk result (λ ps. AreCandidates (A.parents ancestry.now) request.now
            (policies_read self.now.kept.policies) (named ps.items)) }
        ensures ascending { IfOk result (λ ps. Ascend (named ps.items)) }
    {
        if let Some(index) = self.index {
            if scan_count.names_an_entity() {
                if let Ok(policies) = offered(self.store, index, request, ancestry) {
                    return Ok(policies);
                }
            }
        }
        policies_in(self.alloc, self.store)
    }

    /// Returns the answer to a request.
    ///
    /// Looks up the ancestors and the attributes of the request's entities once, for the index and all policies.
    /// `scan_count` records the number of policies that are evaluated.
    ///
    /// # Errors
    ///
    /// - `NoMemory`: an allocation failed.
    pub(crate) fn answer(
        &self,
        request: &Request,
        scan_count: &ScanCount,
    ) -> Result<Answer, NoMemory>
        ensures { IfOk result (IsAnswer (world_stored self.now) request.now (policies_read self.now.kept.policies)) }
    {
        is_in_order(self.store);
        candidates_suffice();
        // 0: memoizes no ancestors of entities other than the request's; the ancestor cache, if present, has them
        let mut prepared = PreparedRequest::of(self.alloc, self, request, 0)?;
        let policies = self.policies_for(request, &prepared, scan_count)?;
        scan_count.begin(policies.len());
        decide_prepared(self.alloc, &policies, &mut prepared)
    }
}
