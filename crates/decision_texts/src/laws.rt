//! Theorems about decisions without a schema. The functions are no-ops.
ghost use Rattle.decision_texts.specs.BareReading.{bare_reading};
ghost use Rattle.decision_texts.specs.Outcomes.{OneLine, NotBoth, OneRefusal, LineOrRefusal, ListsOfLinesAscend};
ghost use Rattle.decision_texts.specs.DecisionLaws.{DecisionsAreAsStated};

use answer_lines::{
    answers_are_lawful, file_names_differ, names_read_back, texts_have_one_reading,
};
use entity_data::ascending_lists_are_one;

/// Proves that, without a schema, three texts have exactly one outcome, a line or an error. No-op.
///
/// In the answer that a line reports, the ids of the determining policies ascend, and so do those of the erroring
/// policies.
pub fn texts_have_one_outcome()
    ensures one_line { OneLine bare_reading }
    ensures not_both { NotBoth bare_reading }
    ensures one_refusal { OneRefusal bare_reading }
    ensures some { LineOrRefusal bare_reading }
    ensures ascending { ListsOfLinesAscend bare_reading }
{
    names_read_back();
    file_names_differ();
    texts_have_one_reading();
    answers_are_lawful();
}

/// Proves that, without a schema, three texts have the outcome that relations on JSON state, item by item. No-op.
///
/// A line is that of Cedar's answer over the entities that the items of the array describe. An error is the first, in
/// the order of [`crate::decide_texts`]; that of an item is at the item's index.
pub fn decisions_are_as_stated()
    ensures { DecisionsAreAsStated }
{
    names_read_back();
    ascending_lists_are_one();
}
