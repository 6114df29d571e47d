//! The check that each policy of a file passes validation.
ghost use Rattle.std.specs.Prelude.{IfOk, IfErr, All, map};
ghost use Rattle.entity_hierarchy.specs.schema.Views.{schema_view};
ghost use Rattle.validator.specs.Passing.{Passes};
ghost use Rattle.plain.specs.AllocationErrors.{OrNoMemory};
ghost use Rattle.decision_texts.specs.answer_lines.Refusals.{no_memory};
ghost use Rattle.schema_decisions.specs.Policies.{IsUnpassed, FirstUnpassed};

use crate::check_refusals::check_refusal;
use decision_texts::{Policy, Refusal};
use std::alloc::Global;
use validator::{Schema, check};

/// Checks that the policy at the index `place` of its file passes validation. The error of a policy that does not pass
/// has this index as its place.
fn check_policy_at(
    alloc: Global,
    schema: &Schema,
    place: usize,
    policy: &Policy,
) -> Result<(), Refusal>
    ensures passes { IfOk result (λ _. Passes (schema_view schema.now) policy.now) }
    ensures refused { IfErr result (OrNoMemory no_memory (IsUnpassed (schema_view schema.now) place policy.now)) }
{
    match check(alloc, schema, policy) {
        Ok(_) => Ok(()),
        Err(fault) => Err(check_refusal(place, fault)),
    }
}

/// Checks that each policy passes validation. Returns the error of the first that does not.
pub(crate) fn check_each(
    alloc: Global,
    schema: &Schema,
    policies: &[(String, Policy)],
) -> Result<(), Refusal>
    ensures passes { IfOk result (λ _. All (Passes (schema_view schema.now)) (map (λ p. p.1) policies.now)) }
    ensures refused { IfErr result
        (OrNoMemory no_memory (FirstUnpassed (schema_view schema.now) 0 (map (λ p. p.1) policies.now))) }
{
    for (place, named) in policies.iter().enumerate() {
        check_policy_at(alloc, schema, place, &named.1)?;
    }
    Ok(())
}
