//! A binary search for environments, which ascend by action, principal type and resource type.
ghost use Rattle.std.specs.Prelude.{◌≡◌, Bool, option_map, slice_get};
ghost use Rattle.std.specs.Ordering.{is_eq, is_lt};
ghost use Rattle.std.specs.declared.cmp.Ordering.{Ordering as PlainOrdering};
ghost use Rattle.schema.specs.declared.parts.EnvironmentKey.{EnvironmentKey as PlainPlace};
ghost use Rattle.schema_types.specs.CedarViews.{cedar_view};
ghost use Rattle.schema.specs.Views.{schema_view, environment_view};
ghost use Rattle.entities.specs.Contexts.{context_where};
ghost use Rattle.entities.specs.inner.EnvironmentSearch.{context_if, AreFoundBy};

use schema::{Environment, EnvironmentKey, Schema, stated_schemas_are_well_formed};
use schema_types::CedarType;
use std::cmp::Ordering;

/// A search for environments, given by a comparison of each environment with those sought.
pub(crate) trait Sought {
    /// The comparison of an environment's action and types with those sought: equal if the environment is sought.
    ghost order: { Self → PlainPlace → PlainOrdering };

    /// Compares an environment's action and types with those sought.
    fn compare(&self, place: &EnvironmentKey) -> Ordering
        ensures { result ≡ order self.now place.now };
}

/// Returns whether an environment comes before those sought.
fn is_before<S: Sought>(environment: &Environment, sought: &S) -> bool
    ensures { result ≡ is_lt (S.order sought.now environment.now.place) }
{
    sought.compare(&environment.place).is_lt()
}

/// Returns the type of the context of the environment at the index `at`; `None` if there is no such environment, or it
/// is not sought.
fn context_at<'s, S: Sought>(
    environments: &'s [Environment],
    at: usize,
    sought: &S,
) -> Option<&'s CedarType>
    ensures { option_map (λ t. cedar_view t.now) result
        ≡ context_if (λ p. is_eq (S.order sought.now p)) (option_map environment_view (slice_get environments.now at)) }
{
    let environment = environments.get(at)?;
    if sought.compare(&environment.place).is_eq() {
        Some(&environment.context)
    } else {
        None
    }
}

/// Returns the type of the context of the first environment that is sought, if there is one. Over ascending
/// environments the results of `sought.compare` must ascend. O(log n), where n is the number of environments.
pub(crate) fn context_of<'s, S: Sought>(schema: &'s Schema, sought: &S) -> Option<&'s CedarType>
    ensures { (passes : PlainPlace → Bool) → AreFoundBy (S.order sought.now) passes
        → option_map (λ t. cedar_view t.now) result ≡ context_where passes (schema_view schema.now).environments }
{
    schema.is_stated();
    stated_schemas_are_well_formed();
    let all = schema.environments();
    let first = all.partition_point(|environment| is_before(environment, sought));
    context_at(all, first, sought)
}
