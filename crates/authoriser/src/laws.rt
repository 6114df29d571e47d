//! Theorems about answers, and about scopes in the expressions of policies. The functions are no-ops.
ghost use Rattle.authoriser.specs.Laws.{OneAnswerAtMost, OneAnswerInFiniteHierarchies, DefaultDeny, ForbidDecides};
ghost use Rattle.authoriser.specs.Laws.{PermitsDecide, ErrorsAreReported};
ghost use Rattle.authoriser.specs.Laws.{IdleChangesNothing, LeavingOutChangesNothing, OrderDoesNotMatter, ListsAscend};
ghost use Rattle.authoriser.specs.Parts.{ScopesDoNotErr, TrueScopesLeaveToConditions, OtherScopesGiveFalse};

use evaluator::{cycles_have_one_least, expressions_have_one_outcome, paths_are_decided};
use values::sets_hold_their_members;

// Proves that a request has at most one answer. No-op.
fn answers_are_one()
    ensures { OneAnswerAtMost }
{
    cycles_have_one_least();
    expressions_have_one_outcome();
}

// Proves that removing one idle policy changes no answer; the theorem on several policies follows from it. No-op.
fn idle_policies_change_nothing()
    ensures { IdleChangesNothing }
{
    expressions_have_one_outcome();
}

/// Proves what a reader of policies may rely on, for all entity data, requests and lists of policies. No-op.
///
/// All but `finite`, `default_deny` and `ascending` assume that a test decides the ancestor relation. Such a test
/// exists if finitely many entities have parents.
///
/// - `one`: a request has at most one answer; `finite`: exactly one, if finitely many entities have parents.
/// - `default_deny`: without a satisfied permit the request is denied.
/// - `forbid`: if a forbid is satisfied, the request is denied, and if no entity is cyclic, exactly the satisfied
///   forbids determine the answer, in order.
/// - `permits`: if no forbid is satisfied and no entity is cyclic, the request is allowed if and only if some permit
///   is satisfied, and exactly the satisfied permits determine the answer, in order.
/// - `errors`: if no entity is cyclic, the errors are those of exactly the erroring policies, in order.
/// - `idle`: removing a policy that is neither satisfied nor erroring changes no answer, whatever its position;
///   `left_out`: nor does removing many of them.
/// - `order`: the order and the repetition of policies change neither the decision nor the cycle, and the determining
///   and erroring policies stay the same.
/// - `ascending`: if the ids of the policies ascend strictly, by their bytes, so do those of the determining and of
///   the erroring policies.
pub fn answers_are_lawful()
    ensures one { OneAnswerAtMost }
    ensures finite { OneAnswerInFiniteHierarchies }
    ensures default_deny { DefaultDeny }
    ensures forbid { ForbidDecides }
    ensures permits { PermitsDecide }
    ensures errors { ErrorsAreReported }
    ensures idle { IdleChangesNothing }
    ensures left_out { LeavingOutChangesNothing }
    ensures order { OrderDoesNotMatter }
    ensures ascending { ListsAscend }
{
    paths_are_decided();
    cycles_have_one_least();
    expressions_have_one_outcome();
    answers_are_one();
    idle_policies_change_nothing();
}

/// Proves the role of a scope in the expression of its policy. No-op.
///
/// - `parts`: each part of a scope evaluates to true if it is true of the request, and to false if it is not: neither
///   outcome is an error.
/// - `leaves`: if all three parts are true, the policy has the outcome of its condition, errors included.
/// - `idle`: if some part is not true, and a test decides the ancestor relation, the policy evaluates to false,
///   whatever its condition is.
pub fn scopes_do_not_err()
    ensures parts { ScopesDoNotErr }
    ensures leaves { TrueScopesLeaveToConditions }
    ensures idle { OtherScopesGiveFalse }
{
    sets_hold_their_members();
}
