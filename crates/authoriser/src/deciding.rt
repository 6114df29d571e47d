//! Decisions: the answer to a request over policies and stored entities.
ghost use Rattle.std.specs.Prelude.{◌≡◌, [], IfOk, MatchOption};
ghost use Rattle.evaluator.specs.ancestor_search.Hierarchy.{referenced};
ghost use Rattle.evaluator.specs.ancestor_search.LeastCycle.{HasNoCycle};
ghost use Rattle.evaluator.specs.Operators.{entities_with};
ghost use Rattle.authoriser.specs.declared.answer.Decision.TheVariants.{Deny};
ghost use Rattle.authoriser.specs.Answers.{IsAnswer, IsCycleDenial};
ghost use Rattle.authoriser.specs.Views.{named};

use crate::answer::{Answer, Decision};
use crate::conditions::outcome_of;
use crate::prepared_request::PreparedRequest;
use crate::tally::Tally;
use evaluator::{Ancestry, Lookup};
use plain::{Items, NoMemory};
use scope_index::Policy;
use std::alloc::Global;
use values::{EntityUid, Request};

/// The greatest number of entities, other than the request's three, whose ancestors [`decide`] memoizes. No answer
/// depends on this number.
const OTHERS_MAX: usize = 64;

/// Copies the uids.
fn copy_uids(alloc: Global, uids: &[&EntityUid]) -> Result<Items<EntityUid>, NoMemory>
    ensures { IfOk result (λ copies. copies ≡ referenced uids.now) }
{
    let mut copies = Vec::with_capacity(alloc, uids.len())?;
    for uid in uids {
        copies.push(uid.copy()?)?;
    }
    Ok(Items::from_vec(copies))
}

/// Returns the answer that follows from the outcomes of the policies. The hierarchy must have no cycle.
fn answer_by_policies<L: Lookup>(
    alloc: Global,
    policies: &[(&str, &Policy)],
    prepared: &mut PreparedRequest<'_, L>,
) -> Result<Answer, NoMemory>
    requires { HasNoCycle (L.parents prepared.old.0) }
    ensures answer { IfOk result (λ a. IsAnswer (entities_with (L.stored prepared.old.0) (L.parents prepared.old.0))
        prepared.old.1 (named policies.now) a) }
    ensures same { prepared.new ≡ prepared.old }
{
    let mut tally = Tally::new(alloc);
    for (id, policy) in policies {
        prepared.memoize_next();
        let outcome = outcome_of(alloc, policy, prepared)?;
        tally.note(id, policy.effect, outcome)?;
    }
    tally.into_answer(alloc)
}

/// Returns a denial that names this cycle and no policies.
fn denial_by_cycle(alloc: Global, cycle: &[&EntityUid]) -> Result<Answer, NoMemory>
    ensures { IfOk result (λ a. a
        ≡ record { decision = Deny; reason = []; errors = []; cycle = referenced cycle.now }) }
{
    let cycle = copy_uids(alloc, cycle)?;
    Ok(Answer {
        decision: Decision::Deny,
        reason: Items::new(alloc),
        errors: Items::new(alloc),
        cycle,
    })
}

/// Returns the denial that names the least cycle; `None` if no entity is cyclic.
fn denial_if_cyclic<L: Lookup>(
    alloc: Global,
    prepared: &PreparedRequest<'_, L>,
) -> Result<Option<Answer>, NoMemory>
    ensures { let parents = L.parents prepared.now.0 in
        IfOk result (λ o. MatchOption o (HasNoCycle parents) (IsCycleDenial parents)) }
{
    match prepared.least_cycle()? {
        None => Ok(None),
        Some(cycle) => Ok(Some(denial_by_cycle(alloc, &cycle)?)),
    }
}

/// Returns the answer to a request, given the ancestors and the attributes of its principal, action and resource.
/// Otherwise like [`decide`].
///
/// `prepared` is the request with this data, and has the limit on memoized entities (64 for [`decide`]). The caller may
/// use `prepared` before this call, for example to find candidates in an index. Afterwards, also after an error,
/// `prepared` is the same request over the same entities. The only error is `NoMemory`.
pub fn decide_prepared<L: Lookup>(
    alloc: Global,
    policies: &[(&str, &Policy)],
    prepared: &mut PreparedRequest<'_, L>,
) -> Result<Answer, NoMemory>
    ensures answer { IfOk result (λ a. IsAnswer (entities_with (L.stored prepared.old.0) (L.parents prepared.old.0))
        prepared.old.1 (named policies.now) a) }
    ensures same { prepared.new ≡ prepared.old }
{
    match denial_if_cyclic(alloc, prepared)? {
        Some(denial) => Ok(denial),
        None => answer_by_policies(alloc, policies, prepared),
    }
}

/// Returns the answer to a request over these policies, each with its id, and the entities of `store`.
///
/// If the caller's ids ascend strictly, the lists of determining and of erroring policies ascend by id (the theorem
/// `ascending` of `answers_are_lawful`). If some entity is cyclic, no policy is evaluated: the request is denied, and
/// the answer names the least cycle.
///
/// Visits each policy at most once. For each of the principal, the action and the resource, the ancestors and the
/// attributes are looked up at most once. A condition is evaluated only if its policy's scope is true. The ancestors of
/// another entity, as in `User::"u" in Group::"g"`, may be memoized after a condition has used them: at most one entity
/// for each policy, and at most 64 in all.
///
/// The only error is `NoMemory`. Source: Cedar reference guide, "Authorization".
pub fn decide<L: Lookup>(
    alloc: Global,
    policies: &[(&str, &Policy)],
    request: &Request,
    store: &L,
) -> Result<Answer, NoMemory>
    ensures { IfOk result (λ a. IsAnswer (entities_with (L.stored store.now) (L.parents store.now)) request.now
        (named policies.now) a) }
{
    let mut prepared = PreparedRequest::of(alloc, store, request, OTHERS_MAX)?;
    decide_prepared(alloc, policies, &mut prepared)
}
