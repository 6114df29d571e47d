//! Theorems about schemas and their parsing. The functions are no-ops.
ghost use Rattle.schema.specs.Laws.{TypesAreRead, TypesHaveOneOutcome, FilesAreRead, FilesHaveOneOutcome};
ghost use Rattle.schema.specs.Laws.{NamesAreResolved, NamesHaveOneOutcome, DeclarationsAreRead};
ghost use Rattle.schema.specs.inner.ByNaming.{SchemasAreRead};
ghost use Rattle.schema.specs.Outcomes.{OneSchema, NotBoth, OneRefusal, SomeOutcome};
ghost use Rattle.schema.specs.WellFormed.{StatedSchemasAreWellFormed};

use ancestor_search::laws::{ascending_lists_are_one, paths_are_decided};
use schema_reading::{
    files_are_in_order, files_name_their_entity_types, files_name_their_own, not_both, one_file,
    one_refusal, shapes_are_records, some_outcome,
};
use schema_types::{
    cycles_have_no_expansion, keys_ascend, one_written, types_expand_or_some_common_does_not,
    what_has_no_expansion_leads_back, written_entities_are_named,
};
use values::path_tests_are_exact;

/// Proves that parsing a type gives the type that JSON describes, or the error if it describes none. No-op.
///
/// JSON describes exactly one type or is rejected with exactly one error, never both.
pub fn types_are_read_as_stated()
    ensures read { TypesAreRead }
    ensures one { TypesHaveOneOutcome }
{
    path_tests_are_exact();
}

/// Proves that parsing a file gives the namespaces that JSON describes, or the error if it describes none. No-op.
///
/// JSON describes exactly one file or is rejected with exactly one error, never both.
pub fn files_are_read_as_stated()
    ensures read { FilesAreRead }
    ensures one { FilesHaveOneOutcome }
{
    path_tests_are_exact();
}

/// Proves that resolving the names of a file gives the file's declarations with each name resolved, or the error if a
/// name means nothing. No-op.
///
/// The names of a file have exactly one meaning or are rejected with exactly one error, never both.
pub fn names_are_resolved_as_stated()
    ensures resolved { NamesAreResolved }
    ensures one { NamesHaveOneOutcome }
{}

/// Proves that parsing bytes gives exactly the declarations that the bytes describe. No-op.
pub fn declarations_are_read_as_stated()
    ensures { DeclarationsAreRead }
{
    path_tests_are_exact();
    cycles_have_no_expansion();
    what_has_no_expansion_leads_back();
    files_name_their_own();
    files_are_in_order();
}

/// Proves that parsing bytes gives the schema that they describe, or their first error. No-op.
pub(crate) fn schemas_are_read_as_stated()
    ensures { SchemasAreRead }
{
    path_tests_are_exact();
    cycles_have_no_expansion();
    what_has_no_expansion_leads_back();
    files_name_their_own();
    files_are_in_order();
}

/// Proves that bytes describe exactly one schema, or are rejected with exactly one error. No-op.
pub fn bytes_have_one_outcome()
    ensures some_outcome { SomeOutcome }
    ensures one_schema { OneSchema }
    ensures not_both { NotBoth }
    ensures one_refusal { OneRefusal }
{
    ascending_lists_are_one();
    paths_are_decided();
    files_are_in_order();
    files_name_their_own();
    one_file();
    not_both();
    one_refusal();
    some_outcome();
    one_written();
    types_expand_or_some_common_does_not();
    schemas_are_read_as_stated();
}

/// Proves the invariants of a schema that bytes describe. No-op.
///
/// Shapes and contexts are records, within the limits and with ascending keys. Environments, actions and ancestors
/// ascend. No action is its own ancestor, and the ancestor relation is transitive. Each named entity type is declared,
/// and so is each ancestor of an action. The last word of each action's type is `Action`; no declared entity type has
/// this last word.
pub fn stated_schemas_are_well_formed()
    ensures { StatedSchemasAreWellFormed }
{
    files_are_in_order();
    files_name_their_entity_types();
    shapes_are_records();
    keys_ascend();
    one_written();
    written_entities_are_named();
    schemas_are_read_as_stated();
}
