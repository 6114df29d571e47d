//! The theorem about checks of policies under a schema. The function is a no-op.
ghost use Rattle.schema_decisions.specs.CheckOutcomes.{TextsHaveOneOutcome};

use decision_texts::texts_have_one_reading;
use entity_hierarchy::bytes_have_one_outcome;
use validator::policies_have_one_outcome;

/// Proves that the texts of a schema and of policies have exactly one outcome: the lines and whether any of them is of
/// a rejected policy, or one error. No-op.
pub fn checks_have_one_outcome()
    ensures { TextsHaveOneOutcome }
{
    bytes_have_one_outcome();
    texts_have_one_reading();
    policies_have_one_outcome();
}
