//! The types that are declared along a path.
ghost use Rattle.std.specs.Prelude.{◌≡◌, option_map};
ghost use Rattle.schema_types.specs.CedarViews.{cedar_view};
ghost use Rattle.explanations.specs.Steps.{step_view, steps_view};
ghost use Rattle.explanations.specs.TypePaths.{type_under, type_at};

use crate::steps::Step;
use entities::{declared_type, element_type, record_fields};
use schema_types::CedarType;

/// Returns the type of the part that a step leads to, if one is declared.
fn type_under<'t>(ty: &'t CedarType, step: Step<'_>) -> Option<&'t CedarType>
    ensures { option_map (λ t. cedar_view t.now) result ≡ type_under (cedar_view ty.now) (step_view step.entry) }
{
    match step {
        Step::Key(key) => match record_fields(ty) {
            Some(fields) => declared_type(fields, key),
            None => None,
        },
        Step::Index(_) => element_type(ty),
    }
}

/// Returns the declared type of the part to which `path` leads in a value of the type `whole`, or `None` if a step has
/// no declared type, as at an undeclared key. Does not allocate.
pub(crate) fn type_at<'t>(whole: &'t CedarType, path: &[Step<'_>]) -> Option<&'t CedarType>
    ensures { option_map (λ t. cedar_view t.now) result ≡ type_at (cedar_view whole.now) (steps_view path.now) }
{
    let mut ty = whole;
    for step in path {
        match type_under(ty, *step) {
            Some(part) => ty = part,
            None => return None,
        }
    }
    Some(ty)
}
