//! Theorems about the content of a schema file. The functions are no-ops.
ghost use Rattle.schema_reading.specs.inner.FileLaws.{FilesStateOnce, FilesTypesAscend};

use schema_types::keys_ascend;

/// Proves that, if the keys of each object ascend, as in parsed JSON, the names that a schema file declares are
/// distinct (`HaveDistinctNames`), and the keys of each record in a type ascend. No-op.
pub(crate) fn stated_files_are_in_order()
    ensures once { FilesStateOnce }
    ensures types { FilesTypesAscend }
{
    keys_ascend();
}
