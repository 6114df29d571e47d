//! Theorems that parsing JSON agrees with the relations in specs/StatedValues, specs/StatedEntities and
//! specs/StatedRequests. The functions are no-ops.
ghost use Rattle.entities.specs.ParsingLaws.{ValuesAreRead, OneValue, OtherJsonIsOfWrongType};
ghost use Rattle.entities.specs.ParsingLaws.{RecordsAreRead, RecordsAreRefused};
ghost use Rattle.entities.specs.ParsingLaws.{EntitiesAreRead, EntitiesHaveOneOutcome};
ghost use Rattle.entities.specs.ParsingLaws.{ContextsAreRead, ContextsHaveOneOutcome};
ghost use Rattle.entities.specs.ParsingLaws.{RequestsAreRead, RequestsHaveOneOutcome};

use crate::laws::{action_type_test_is_exact, requests_have_one_outcome};
use entity_data::ascending_lists_are_one;
use entity_uids::names_read_back;

/// Proves that parsing by a type gives the value that JSON describes, or the error if it describes none. No-op.
///
/// JSON describes at most one value of a type; if it describes none, the error is `WrongType`. Parsing a record gives
/// the fields that an object describes, or the first error.
pub fn values_are_read_as_stated()
    ensures values { ValuesAreRead }
    ensures one { OneValue }
    ensures other { OtherJsonIsOfWrongType }
    ensures records { RecordsAreRead }
    ensures refused { RecordsAreRefused }
{
    names_read_back();
}

/// Proves that parsing an entity under a schema gives the entity that JSON describes, or the first error. No-op.
///
/// JSON describes exactly one entity or is rejected with exactly one error, never both.
pub fn entities_are_read_as_stated()
    ensures read { EntitiesAreRead }
    ensures one { EntitiesHaveOneOutcome }
{
    names_read_back();
    action_type_test_is_exact();
    ascending_lists_are_one();
}

/// Proves that parsing the context of an action under a schema gives the context that JSON describes, or the first
/// error. No-op.
///
/// JSON describes exactly one context or is rejected with exactly one error, never both.
pub fn contexts_are_read_as_stated()
    ensures read { ContextsAreRead }
    ensures one { ContextsHaveOneOutcome }
{
    names_read_back();
}

/// Proves that parsing a request under a schema gives the request that JSON describes, or the first error. No-op.
///
/// JSON describes exactly one request or is rejected with exactly one error, never both.
pub fn requests_are_read_as_stated()
    ensures read { RequestsAreRead }
    ensures one { RequestsHaveOneOutcome }
{
    names_read_back();
    requests_have_one_outcome();
}
