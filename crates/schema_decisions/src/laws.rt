//! Theorems about the decision of four texts. The functions are no-ops.
ghost use Rattle.schema_decisions.specs.Outcomes.{OneLine, NotBoth, OneRefusal, LineOrRefusal};
ghost use Rattle.schema_decisions.specs.Outcomes.{ListsOfLinesAscend, MemberOfDecidesAlike};
ghost use Rattle.schema_decisions.specs.StatedDecisions.{DecisionsAreAsStated};

use decision_texts::texts_have_one_reading;
use entity_hierarchy::{
    actions_may_be_closed, answers_are_lawful, bytes_have_one_outcome, entities_are_read_as_stated,
    file_names_differ, requests_are_read_as_stated, requests_have_one_outcome,
};
use validator::policies_have_one_outcome;

/// Proves that the texts of a schema, policies, entities and a request have exactly one outcome, a line or an error.
/// No-op.
///
/// In an answer line the ids of the determining policies ascend, and so do those of the erroring policies. In the
/// entity data of the answer, each action has the parents that its `memberOf` names.
pub fn texts_have_one_outcome()
    ensures one_line { OneLine }
    ensures not_both { NotBoth }
    ensures one_refusal { OneRefusal }
    ensures some { LineOrRefusal }
    ensures ascending { ListsOfLinesAscend }
    ensures alike { MemberOfDecidesAlike }
{
    bytes_have_one_outcome();
    texts_have_one_reading();
    file_names_differ();
    policies_have_one_outcome();
    requests_have_one_outcome();
    actions_may_be_closed();
    answers_are_lawful();
}

/// Proves that the texts of a schema, policies, entities and a request have the outcome that relations on JSON state,
/// item by item. No-op.
///
/// A line is that of Cedar's answer over the entities that the items of the array describe under the schema. An error
/// is the first, in the order of [`crate::decide_under`]; that of an item is at the item's index.
pub fn decisions_are_as_stated()
    ensures { DecisionsAreAsStated }
{
    entities_are_read_as_stated();
    requests_are_read_as_stated();
}
