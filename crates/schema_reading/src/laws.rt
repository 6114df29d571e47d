//! Theorems about a schema file with resolved names. The functions are no-ops.
ghost use Rattle.schema_reading.specs.Laws.{FilesNameTheirOwn, ShapesAreRecords, SomeOutcome, OneFile, OneRefusal};
ghost use Rattle.schema_reading.specs.Laws.{NotBoth, FilesDeclareOnce, FilesTypesAscend, FilesNameTheirEntityTypes};

use crate::file_laws::stated_files_are_in_order;
use schema_types::{found_names_are_declared, keys_ascend};

/// Proves that each common type that a schema file mentions is declared there. No-op.
pub fn files_name_their_own()
    ensures { FilesNameTheirOwn }
{
    found_names_are_declared();
}

/// Proves that each entity type that a schema file mentions is declared there: those in types, the parent types, and
/// those in what an action applies to. No-op.
pub fn files_name_their_entity_types()
    ensures { FilesNameTheirEntityTypes }
{
    found_names_are_declared();
}

/// Proves that a schema file declares nothing twice: no common type has two definitions, and no two entity types and no
/// two actions have the same name. The keys of each record in a type ascend strictly. No-op.
pub fn files_are_in_order()
    ensures once { FilesDeclareOnce }
    ensures types { FilesTypesAscend }
{
    keys_ascend();
    stated_files_are_in_order();
}

/// Proves that the expansion of a shape or a context, if it has one, is a record. No-op.
pub fn shapes_are_records()
    ensures { ShapesAreRecords }
{}

/// Proves that all bytes describe a schema file or are rejected. No-op.
pub fn some_outcome()
    ensures { SomeOutcome }
{}

/// Proves that bytes describe at most one schema file. No-op.
pub fn one_file()
    ensures { OneFile }
{}

/// Proves that bytes are rejected with at most one error. No-op.
pub fn one_refusal()
    ensures { OneRefusal }
{}

/// Proves that bytes that describe a schema file are not rejected. No-op.
pub fn not_both()
    ensures { NotBoth }
{}
