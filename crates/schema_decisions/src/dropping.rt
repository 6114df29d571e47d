//! Functions that drop what was read. They are not generic, so that a crate that calls them does not prove the drop
//! code of schemas and policies again.

use decision_texts::Policy;
use validator::Schema;

/// Drops a schema.
pub fn drop_schema(schema: Schema) {
    drop(schema);
}

/// Drops the policies of a file.
pub fn drop_policies(policies: Vec<(String, Policy)>) {
    drop(policies);
}
