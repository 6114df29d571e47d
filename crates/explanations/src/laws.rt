//! Theorems about explanations and about the paths to parts at fault. The functions are no-ops.
ghost use Rattle.explanations.specs.Laws.{ExplainedTextsAreReadable};
ghost use Rattle.explanations.specs.Readable.{ExplanationsAreReadable};
ghost use Rattle.explanations.specs.PathLaws.{ValuesHavePaths, RecordsHavePaths, EntitiesHavePaths};
ghost use Rattle.explanations.specs.PathLaws.{RequestsHavePaths, EntityPartsHaveOneText, RequestPartsHaveOneText};

use entities::{names_read_back, requests_have_one_outcome};
use policy_grammar::texts_have_one_reading;

/// Proves that the explanation of an error, and the text on an error code, have no characters that control a terminal.
/// Whatever the name and the content of the file, an explanation has no control characters except tabs and line feeds,
/// and none that changes the direction of writing. No-op.
pub fn explanations_are_readable()
    ensures { ExplanationsAreReadable }
{}

/// Proves that the explanation of files, and that of a rejected message, have no characters that control a terminal,
/// whatever the files contain and whatever their names are. No-op.
pub fn explained_texts_are_readable()
    ensures { ExplainedTextsAreReadable }
{}

/// Proves that JSON that a type rejects has exactly one path to the part at fault, and JSON that it accepts has no
/// path. No-op.
///
/// The same holds for JSON that is parsed as attributes or as a context.
pub fn rejected_values_have_one_path()
    ensures values { ValuesHavePaths }
    ensures records { RecordsHavePaths }
{}

/// Proves that an entity that a schema rejects has exactly one path to the part that its error is about. No-op.
pub fn rejected_entities_have_one_path()
    ensures { EntitiesHavePaths }
{}

/// Proves that a request that a schema rejects has exactly one path to the part that its error is about. No-op.
pub fn rejected_requests_have_one_path()
    ensures { RequestsHavePaths }
{
    names_read_back();
    texts_have_one_reading();
}

/// Proves that the schema and the JSON determine the words that name the part at fault of an entity. No-op.
pub fn entity_parts_have_one_text()
    ensures { EntityPartsHaveOneText }
{
    rejected_entities_have_one_path();
}

/// Proves that the schema and the JSON determine the words that name the part at fault of a request. No-op.
pub fn request_parts_have_one_text()
    ensures { RequestPartsHaveOneText }
{
    rejected_requests_have_one_path();
    requests_have_one_outcome();
}
