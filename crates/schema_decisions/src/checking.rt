//! Checks of policies under a schema, from bytes to lines.
ghost use Rattle.std.specs.Prelude.{◌≡◌, ◌||◌, IfOk, IfErr};
ghost use Rattle.entity_hierarchy.specs.schema.Views.{schema_view};
ghost use Rattle.decision_texts.specs.answer_lines.Refusals.{no_memory};
ghost use Rattle.decision_texts.specs.Decisions.{ArePoliciesRefused};
ghost use Rattle.validator.specs.Outcomes.{IsCheckResult};
ghost use Rattle.schema_decisions.specs.Lines.{is_refusal};
ghost use Rattle.schema_decisions.specs.Checks.{AreReportsOf, AreReportsOnFile, IsChecked, AreChecksRefused};
ghost use Rattle.schema_decisions.specs.inner.Named.{named_in, outcome_of};

use crate::lines::{add_line, verdict_line};
use crate::reading::parse_schema;
use decision_texts::{Policy, Refusal, policies_of_file};
use plain::NoMemory;
use std::alloc::Global;
use validator::{Schema, TypeFault, Verdict, check};

/// Returns the outcome of validating a policy: its verdict, or its error.
fn verdict_of(
    alloc: Global,
    schema: &Schema,
    policy: &Policy,
) -> Result<Result<Verdict, TypeFault>, NoMemory>
    ensures { IfOk result (λ verdict. IsCheckResult (schema_view schema.now) policy.now (outcome_of verdict)) }
{
    match check(alloc, schema, policy) {
        Ok(verdict) => Ok(Ok(verdict)),
        Err(TypeFault::NoMemory) => Err(NoMemory),
        Err(fault) => Ok(Err(fault)),
    }
}

/// Returns whether a validation outcome is an error.
fn refuses(verdict: Result<Verdict, TypeFault>) -> bool
    ensures { result ≡ is_refusal (outcome_of verdict) }
{
    match verdict {
        Ok(_) => false,
        Err(_) => true,
    }
}

/// Returns whether at least one of the two is true.
fn either(first: bool, second: bool) -> bool
    ensures { result ≡ (first || second) }
{
    first || second
}

/// Returns the lines of the policies, in their order, and whether any of the policies is rejected.
fn check_each(
    alloc: Global,
    schema: &Schema,
    policies: &[(String, Policy)],
) -> Result<(Vec<u8>, bool), NoMemory>
    ensures { IfOk result
        (λ report. AreReportsOf (schema_view schema.now) (named_in policies.now) report.0.items report.1) }
{
    let mut text = Vec::new(alloc);
    let mut some_refused = false;
    for (place, named) in policies.iter().enumerate() {
        let verdict = verdict_of(alloc, schema, &named.1)?;
        let line = verdict_line(alloc, named.0.as_str(), verdict)?;
        add_line(&mut text, place == 0, &line)?;
        some_refused = either(some_refused, refuses(verdict));
    }
    Ok((text, some_refused))
}

/// Returns the lines of a file's policies under a schema, and whether any of the policies is rejected.
fn check_file(alloc: Global, schema: &Schema, policies: &[u8]) -> Result<(Vec<u8>, bool), Refusal>
    ensures report { IfOk result
        (λ report. AreReportsOnFile (schema_view schema.now) policies.now report.0.items report.1) }
    ensures refused { IfErr result (λ r. (r ≡ no_memory → ⊥) → ArePoliciesRefused policies.now r) }
{
    let policies = policies_of_file(alloc, policies)?;
    Ok(check_each(alloc, schema, &policies)?)
}

/// Validates the policies of a file under a schema. Returns a line for each, and whether any of them is rejected.
///
/// The lines have the order of the file, with a line feed between each two:
///
/// - `{"id":"policy0","verdict":"accepted"}`: the policy passes validation, and is not impossible.
/// - `{"id":"policy0","verdict":"impossible"}`: the policy passes, and its type is False in each environment of the
///   schema, so that no request satisfies it if the request and the entities conform to the schema.
/// - `{"code":44,"id":"policy0","verdict":"refused"}`: the policy does not pass; `code` is the code of its error (40 to
///   46).
///
/// # Errors
///
/// In this order; a policy that does not pass is not an error of the texts:
///
/// - 20 to 25, without a place: the schema is rejected.
/// - 10 to 19, at a byte offset: the text of the policies is rejected.
/// - `NoMemory` (1): an allocation failed; possible at any point.
pub fn check_texts(
    alloc: Global,
    schema: &[u8],
    policies: &[u8],
) -> Result<(Vec<u8>, bool), Refusal>
    ensures checked { IfOk result (λ report. IsChecked schema.now policies.now report.0.items report.1) }
    ensures refused { IfErr result
        (λ refusal. (refusal ≡ no_memory → ⊥) → AreChecksRefused schema.now policies.now refusal) }
{
    let schema = parse_schema(alloc, schema)?;
    check_file(alloc, &schema, policies)
}
