//! The candidates that the index of a store offers for a request.
ghost use Rattle.std.specs.Prelude.{IfOk};
ghost use Rattle.site_meaning.specs.authoriser.Views.{named};
ghost use Rattle.site_meaning.specs.TextsRead.{policies_read};
ghost use Rattle.site_store.specs.Indexed.{AreIndexed};
ghost use Rattle.site_store.specs.Candidates.{AreCandidates, Ascend};

use ancestor_closure::Ancestry;
use plain::NoMemory;
use scope_index::{Policy, ScopeIndex};
use site_meaning::Entity;
use stamped_store::StampedStore;
use values::Request;

/// Returns the candidates that the index has for a request, in ascending order of ids. They are borrowed from the
/// index, without look-ups in the store.
///
/// # Errors
///
/// - `NoMemory`: an allocation failed.
pub(crate) fn offered<'s, A: Ancestry>(
    store: &StampedStore<Policy, Entity>,
    index: &'s ScopeIndex,
    request: &Request,
    ancestry: &A,
) -> Result<Vec<(&'s str, &'s Policy)>, NoMemory>
    requires { AreIndexed store.now.policies index.now }
    ensures candidates { IfOk result (λ ps. AreCandidates (A.parents ancestry.now) request.now
        (policies_read store.now.policies) (named ps.items)) }
    ensures ascending { IfOk result (λ ps. Ascend (named ps.items)) }
{
    // the proof needs the fact that the entries of a store are in ascending order of names
    let _policies = store.policies();
    index.candidates(request, ancestry)
}
