//! Theorems about JSON. The functions are no-ops.
ghost use Rattle.json_words.specs.Ascending.{JsonAscends};
ghost use Rattle.json_words.specs.Plain.{CompactReadsBack, CompactIsOne};

/// Proves that the keys of each parsed object ascend strictly by their bytes, at every depth: so each key occurs
/// once. No-op.
pub fn json_keys_ascend()
    ensures { JsonAscends }
{}

/// Proves that the compact text of plain JSON, nested at most 127 deep, parses as that JSON; so two such values with
/// equal texts are equal. The numbers of plain JSON are integers from -2^63 to 2^64 - 1, its strings and keys are
/// UTF-8, and the keys of each object ascend. No-op.
pub fn compact_texts_read_back()
    ensures back { CompactReadsBack }
    ensures one { CompactIsOne }
{}
