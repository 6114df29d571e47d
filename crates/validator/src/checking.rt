//! Validation of a policy under a schema.
ghost use Rattle.std.specs.Prelude.{◌≡◌, ◌≢◌, IfOk, IfErr, true};
ghost use Rattle.type_checker.specs.policy_grammar.PolicyExpression.{expression_of};
ghost use Rattle.type_checker.specs.schema.Views.{schema_view, environment_view};
ghost use Rattle.type_checker.specs.FromSchemas.{typing_environment_of};
ghost use Rattle.validator.specs.Passing.{IsVerdict, IsCheckRefused};
ghost use Rattle.validator.specs.inner.Checking.{scope_parts, typing_environments, IsJudged, AreJudged};
ghost use Rattle.validator.specs.inner.Walking.{parts_check};

use crate::scope::parts_of;
use crate::walking::{walk, walk_each};
use grammar_core::Expr;
use std::alloc::Global;
use type_checker::{
    Environment, Policy, Schema, TypeFault, TypingEnvironment, expressions_have_one_judgement,
    judge_all,
};

/// The result of validating a policy that passes.
#[derive(Clone, Copy, PartialEq, Eq)]
pub struct Verdict {
    /// Whether the policy's type is False in each environment of the schema. No request satisfies such a policy if the
    /// request and the entities conform to the schema.
    pub impossible: bool,
}

/// Checks that the entity types and actions that a policy names are declared: those in `parts` (the expressions of its
/// scope), then those in its conditions. Returns the error of the first undeclared name.
fn check_names(schema: &Schema, parts: &[Expr], policy: &Policy) -> Result<(), TypeFault>
    ensures { result ≡ parts_check (schema_view schema.now) parts.now policy.now.condition }
{
    let condition = &*policy.condition;
    walk_each(schema, parts)?;
    walk(schema, condition)
}

/// Returns whether a policy's type is False in an environment, or the error of typing it there, or `NoMemory`. `parts`
/// are the expressions of the policy's scope.
fn is_false_at(
    alloc: Global,
    schema: &Schema,
    environment: &Environment,
    parts: &[Expr],
    policy: &Policy,
) -> Result<bool, TypeFault>
    requires { parts.now ≡ scope_parts policy.now.scope }
    ensures { IsJudged (typing_environment_of (schema_view schema.now) (environment_view environment.now))
        (expression_of policy.now) result }
{
    expressions_have_one_judgement();
    let env = TypingEnvironment::new(schema, environment);
    let found = judge_all(alloc, env, parts, &policy.condition)?;
    Ok(found.is_false())
}

/// Returns whether a policy's type is False in each of `environments`, or the error of the first environment that has
/// one, or `NoMemory`. `parts` are the expressions of the policy's scope.
fn is_false_everywhere(
    alloc: Global,
    schema: &Schema,
    environments: &[Environment],
    parts: &[Expr],
    policy: &Policy,
) -> Result<bool, TypeFault>
    requires { parts.now ≡ scope_parts policy.now.scope }
    ensures { AreJudged (expression_of policy.now) true
        (typing_environments (schema_view schema.now) environments.now) result }
{
    let mut all_false = true;
    for environment in environments {
        let is_false = is_false_at(alloc, schema, environment, parts, policy)?;
        all_false &= is_false;
    }
    Ok(all_false)
}

/// Validates a policy under a schema, in strict mode.
///
/// Returns whether the policy is impossible: its type is False in each environment of the schema. An impossible
/// policy passes validation if the entity types and the actions that it names are declared. If the schema has no
/// environments, every policy is impossible.
///
/// # Errors
///
/// The entity types and the actions that the policy names are checked first, in the order of its text. Then its
/// expression is typed in each environment, in ascending order of action, principal type and resource type. The first
/// error is returned:
///
/// - `UnknownType` (40), `UnknownAction` (41): a name, even one in an operand that is not typed, is not declared.
/// - `Unexpected` (42), `NoCommonType` (43), `AttributeMayBeMissing` (44), `EmptySet` (45), `BadExtensionLiteral`
///   (46): the first error of typing, in the order of evaluation, in the first environment that has one.
/// - `NoMemory` (1): an allocation failed, or a count of references would overflow; possible at any point.
///
/// The stack grows with the height of the policy's expression.
///
/// Source: Cedar reference guide, "Policy validation".
#[tactic(auto, using(crate::proofs::CheckLemmas::name_refused, crate::proofs::CheckLemmas::type_refused))]
pub fn check(alloc: Global, schema: &Schema, policy: &Policy) -> Result<Verdict, TypeFault>
    ensures passes { IfOk result (λ v. IsVerdict (schema_view schema.now) policy.now v.impossible) }
    ensures refused { IfErr result
        (λ f. f ≢ TypeFault.NoMemory → IsCheckRefused (schema_view schema.now) policy.now f) }
{
    let scope = parts_of(alloc, policy)?;
    let parts = scope.as_slice();
    check_names(schema, parts, policy)?;
    let environments = schema.environments();
    let impossible = is_false_everywhere(alloc, schema, environments, parts, policy)?;
    Ok(Verdict { impossible })
}
