//! Theorems about entities and requests under a schema. The functions are no-ops.
ghost use Rattle.entities.specs.Laws.{CanonicalEntityIsRead, CanonicalEntityNests, CanonicalIsOne};
ghost use Rattle.entities.specs.Laws.{SetsHoldTheirMembers, ActionTypeTestIsExact};
ghost use Rattle.entities.specs.Laws.{OneRequest, NotBoth, OneRefusal, RequestOrRefusal};

use crate::value_laws::records_are_read_again;
use entity_uids::{names_read_back, texts_have_one_reading};

/// Proves that the canonical JSON of a parsed entity is parsed as that entity under the same schema. No-op.
///
/// If the schema is well-formed, this JSON is within the limit of nesting. No other entity parsed under the same schema
/// has this JSON. A set of uids ascends, and has exactly the uids that it was made of.
pub fn entities_read_back()
    ensures read { CanonicalEntityIsRead }
    ensures nests { CanonicalEntityNests }
    ensures one { CanonicalIsOne }
    ensures members { SetsHoldTheirMembers }
{
    names_read_back();
    records_are_read_again();
}

/// Proves that the test for an action's type accepts exactly the names whose last word is `Action`. No-op.
pub fn action_type_test_is_exact()
    ensures { ActionTypeTestIsExact }
{}

/// Proves that a value describes exactly one request or is rejected with exactly one error, and never both. No-op.
pub fn requests_have_one_outcome()
    ensures one_request { OneRequest }
    ensures not_both { NotBoth }
    ensures one_refusal { OneRefusal }
    ensures some { RequestOrRefusal }
{
    names_read_back();
    texts_have_one_reading();
}
