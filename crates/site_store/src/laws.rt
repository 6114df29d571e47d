//! A theorem about candidates. The function is a no-op.
ghost use Rattle.site_store.specs.Candidates.{CandidatesSuffice};

use site_meaning::{answers_are_lawful, expressions_have_one_outcome, scopes_do_not_err};

/// Proves that a decision over candidates gives the same answer as a decision over all policies, if the ids of both
/// ascend, and a test decides the ancestor relation. Candidates are some of the policies, among them each whose scope
/// is true for the request. No-op.
pub fn candidates_suffice()
    ensures { CandidatesSuffice }
{
    answers_are_lawful();
    scopes_do_not_err();
    expressions_have_one_outcome();
}
