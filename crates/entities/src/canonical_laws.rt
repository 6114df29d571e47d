//! Theorems about the canonical texts of entities. The functions are no-ops.
ghost use Rattle.entities.specs.CanonicalLaws.{JsonTextsAreUtf8, CanonicalTextsAreJson};
ghost use Rattle.entities.specs.CanonicalLaws.{CanonicalTextsReadBack, CanonicalTextsAreOne};

use crate::laws::entities_read_back;
use json_words::{compact_texts_read_back, json_keys_ascend};

/// Proves that each string and each key in parsed JSON is UTF-8. No-op.
pub fn json_texts_are_utf8()
    ensures { JsonTextsAreUtf8 }
{}

/// Proves the round trip of the canonical text of an entity that was parsed from bytes. No-op.
///
/// Under a well-formed schema, the JSON of the text is the entity's canonical JSON, and the text is parsed as that
/// entity. No other entity parsed under that schema has the text.
pub fn canonical_texts_are_read()
    ensures json { CanonicalTextsAreJson }
    ensures back { CanonicalTextsReadBack }
    ensures one { CanonicalTextsAreOne }
{
    json_texts_are_utf8();
    entities_read_back();
    json_keys_ascend();
    compact_texts_read_back();
}
