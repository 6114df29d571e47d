//! Theorems: parsing a message gives what its bytes describe, or their error. The functions are no-ops.
ghost use Rattle.sync_messages.specs.ParsingLaws.{UpdatesAreRead, UpdatesHaveOneOutcome, UpdatesAreWritten};
ghost use Rattle.sync_messages.specs.ParsingLaws.{SummariesAreRead, SummariesHaveOneOutcome, SummariesAreWritten};
ghost use Rattle.sync_messages.specs.ParsingLaws.{TextsAreRead, MessagesAreRead, MessagesHaveOneOutcome};

use crate::laws::stored_texts_have_one_reading;
use json_words::json_keys_ascend;
use stamped_store::laws::site_names_are_recognized;
use sync_format::{names_read_back, stamps_read_back};
use validator::entities_are_read_as_stated;

/// Proves that parsing a state or delta gives the updates that bytes describe, or the first error, before the ranges
/// and texts of the updates are checked. No-op.
///
/// Bytes describe exactly one list of updates or are rejected with exactly one error, never both. If bytes of version 2
/// are parsed as updates, the JSON of the bytes has exactly the keys and values with which these updates are written.
pub fn updates_are_read_as_stated()
    ensures read { UpdatesAreRead }
    ensures one { UpdatesHaveOneOutcome }
    ensures written { UpdatesAreWritten }
{
    json_keys_ascend();
    names_read_back();
    stamps_read_back();
    site_names_are_recognized();
}

/// Proves that parsing a summary gives the summary that bytes describe, or the first error. No-op.
///
/// Bytes describe exactly one summary or are rejected with exactly one error, never both. If bytes of version 2 are
/// parsed as a summary, the JSON of the bytes has exactly the keys and values with which this summary is written.
pub fn summaries_are_read_as_stated()
    ensures read { SummariesAreRead }
    ensures one { SummariesHaveOneOutcome }
    ensures written { SummariesAreWritten }
{
    json_keys_ascend();
    names_read_back();
    stamps_read_back();
    site_names_are_recognized();
}

/// Proves that parsing a text under a schema and a uid gives the entity with this uid and this canonical text, or the
/// first error of the text. No-op.
pub fn entity_texts_are_read_as_stated()
    ensures { TextsAreRead }
{
    entities_are_read_as_stated();
}

/// Proves that parsing a message under a schema gives the updates that bytes describe, with their texts parsed, or the
/// first error. No-op.
///
/// Bytes describe exactly one list of updates or are rejected with exactly one error, never both.
pub fn messages_are_read_as_stated()
    ensures read { MessagesAreRead }
    ensures one { MessagesHaveOneOutcome }
{
    json_keys_ascend();
    names_read_back();
    stamps_read_back();
    site_names_are_recognized();
    entities_are_read_as_stated();
    stored_texts_have_one_reading();
}
