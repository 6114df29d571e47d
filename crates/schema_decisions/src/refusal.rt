//! Errors of entities and of requests, as a [`Refusal`].
ghost use Rattle.std.specs.Prelude.{◌≡◌};
ghost use Rattle.schema_decisions.specs.Refusals.{entity_refusal};

use decision_texts::Refusal;
use entity_hierarchy::EntityFault;

/// Converts an error of an entity or of a request to a [`Refusal`] without a place.
pub(crate) fn entity_refusal(fault: EntityFault) -> Refusal
    ensures { result ≡ entity_refusal fault }
{
    Refusal {
        code: fault.code(),
        place: None,
        within: None,
    }
}
