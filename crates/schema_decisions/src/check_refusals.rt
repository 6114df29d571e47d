//! Errors of schemas and of validation, as a [`Refusal`] of [`decision_texts`]: a code, a place, and the code of an
//! inner error.
ghost use Rattle.std.specs.Prelude.{◌≡◌};
ghost use Rattle.schema_decisions.specs.CheckRefusals.{schema_refusal, check_refusal};

use decision_texts::{Place, Refusal};
use validator::{SchemaFault, TypeFault};

/// Converts an error of the schema (20 to 25, or 1 for `NoMemory`) to a [`Refusal`] without a place.
pub fn schema_refusal(fault: SchemaFault) -> Refusal
    ensures { result ≡ schema_refusal fault }
{
    Refusal {
        code: fault.code(),
        place: None,
        within: None,
    }
}

/// Converts an error of validation (40 to 46) to a [`Refusal`] whose place is the policy's index in its file.
/// `NoMemory` (1) has no place.
pub fn check_refusal(index: usize, fault: TypeFault) -> Refusal
    ensures { result ≡ check_refusal index fault }
{
    let place = match fault {
        TypeFault::NoMemory => None,
        _ => Some(Place::Index(index)),
    };
    Refusal {
        code: fault.code(),
        place,
        within: None,
    }
}
