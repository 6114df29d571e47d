//! The theorems about the example. The function is a no-op.
ghost use Rattle.site_theorems.specs.ExamplePremises.{ExampleSchemaIsDescribed, ExampleDataIsParsed};
ghost use Rattle.site_theorems.specs.ExamplePremises.{ExampleDataConforms};
ghost use Rattle.site_theorems.specs.ExamplePremises.{ExamplePolicyPasses, UnguardedAccessIsRejected};

use site::{declarations_are_read_as_stated, names_read_back, parsed_data_conforms};
use values::path_tests_are_exact;

/// Proves by an example that the theorems about schemas and what conforms to them are not vacuous. No-op.
///
/// The bytes of the example describe a schema, and the entity and the request of the example are parsed under the
/// schema and conform to it. A policy that tests for an optional attribute by `has` before accessing the attribute
/// passes validation, and the request satisfies the policy; the same policy without `has` is rejected.
pub fn something_conforms_under_a_schema()
    ensures stated { ExampleSchemaIsDescribed }
    ensures read { ExampleDataIsParsed }
    ensures conforms { ExampleDataConforms }
    ensures passes { ExamplePolicyPasses }
    ensures refused { UnguardedAccessIsRejected }
{
    path_tests_are_exact();
    names_read_back();
    declarations_are_read_as_stated();
    parsed_data_conforms();
}
