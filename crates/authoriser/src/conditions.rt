//! The outcome of a policy on a request.
ghost use Rattle.std.specs.Prelude.{◌≡◌, IfOk, MatchResult};
ghost use Rattle.evaluator.specs.declared.fault.EvalFault.TheVariants as evaluating;
ghost use Rattle.evaluator.specs.Operators.{entities_with};
ghost use Rattle.authoriser.specs.Answers.{fault_of, PolicyEvaluatesTo};
ghost use Rattle.authoriser.specs.inner.Views.{ConditionEvaluatesTo};

use crate::laws::scopes_do_not_err;
use crate::outcome::{Outcome, PolicyError};
use crate::prepared_request::PreparedRequest;
use crate::scopes::is_scope_true;
use evaluator::{EvalEnv, EvalFault, Lookup, evaluate_condition};
use grammar_core::Expr;
use plain::NoMemory;
use scope_index::Policy;
use std::alloc::Global;

/// Returns the policy error that reports an evaluation error. Fails with `NoMemory` if the evaluation failed with it.
fn error_by(fault: EvalFault) -> Result<PolicyError, NoMemory>
    ensures { MatchResult result (λ error. fault ≡ fault_of error) (λ _. fault ≡ evaluating.NoMemory) }
{
    match fault {
        EvalFault::EntityDoesNotExist => Ok(PolicyError::EntityDoesNotExist),
        EvalFault::AttrDoesNotExist => Ok(PolicyError::AttrDoesNotExist),
        EvalFault::TypeError => Ok(PolicyError::TypeError),
        EvalFault::ArithBoundsError => Ok(PolicyError::ArithBoundsError),
        EvalFault::ExtensionError => Ok(PolicyError::ExtensionError),
        EvalFault::NoMemory => Err(NoMemory),
    }
}

/// Returns the outcome of a policy whose scope is true, given its condition.
fn outcome_of_condition<L: EvalEnv>(
    alloc: Global,
    condition: &Expr,
    store: &L,
) -> Result<Outcome, NoMemory>
    ensures { let W = entities_with (L.stored store.now) (L.parents store.now) in
        IfOk result (ConditionEvaluatesTo W (L.request_of store.now) condition.now) }
{
    match evaluate_condition(alloc, condition, store) {
        Ok(true) => Ok(Outcome::Satisfied),
        Ok(false) => Ok(Outcome::NotSatisfied),
        Err(fault) => Ok(Outcome::Errs(error_by(fault)?)),
    }
}

/// Returns the outcome of a policy. Its condition is evaluated only if its scope is true: a scope never errors, and a
/// policy whose scope is not true is not satisfied, whatever its condition (`scopes_do_not_err`).
pub(crate) fn outcome_of<L: Lookup>(
    alloc: Global,
    policy: &Policy,
    prepared: &PreparedRequest<'_, L>,
) -> Result<Outcome, NoMemory>
    ensures { IfOk result
        (PolicyEvaluatesTo (entities_with (L.stored prepared.now.0) (L.parents prepared.now.0)) prepared.now.1
        policy.now) }
{
    scopes_do_not_err();
    if is_scope_true(&policy.scope, prepared.request_entities()) {
        outcome_of_condition(alloc, &policy.condition, prepared)
    } else {
        Ok(Outcome::NotSatisfied)
    }
}
