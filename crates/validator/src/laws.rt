//! Theorems about validation. The functions are no-ops.
ghost use Rattle.validator.specs.Outcomes.{PoliciesHaveOneOutcome, NoEnvironmentIsImpossible};
ghost use Rattle.validator.specs.Outcomes.{PassingIsNotRefused, PassingPoliciesAreSound};

use type_checker::{expressions_have_one_judgement, typed_expressions_are_sound};

/// Proves that each policy has exactly one outcome under a schema: it passes, and is impossible or not, or it is
/// rejected with one error. No-op.
///
/// If the schema has no environment, a policy whose names are all declared passes and is impossible.
pub fn policies_have_one_outcome()
    ensures one { PoliciesHaveOneOutcome }
    ensures apart { PassingIsNotRefused }
    ensures no_environment { NoEnvironmentIsImpossible }
{
    expressions_have_one_judgement();
}

/// Proves that validation is sound. On a request and entities that conform to the schema, a policy that passes gives a
/// boolean, `EntityDoesNotExist` or `ArithBoundsError`, and an impossible policy never gives true. No-op.
///
/// The theorem assumes that a test decides the ancestor relation of the entities.
pub fn passing_policies_are_sound()
    ensures { PassingPoliciesAreSound }
{
    expressions_have_one_judgement();
    typed_expressions_are_sound();
}
