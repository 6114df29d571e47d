//! Theorems about the typing environments of a schema. The functions are no-ops.
ghost use Rattle.type_checker.specs.Laws.{TypeAncestryIsTransitive, StatedTypesAreOrdered};

use entities::stated_schemas_are_well_formed;

/// Proves that the environments of each schema that some bytes describe satisfy two premises of the theorems about
/// typing: the ancestor relation of entity types is transitive, and the keys of each record type ascend. No-op.
pub fn environments_are_ordered()
    ensures transitive { TypeAncestryIsTransitive }
    ensures ordered { StatedTypesAreOrdered }
{
    stated_schemas_are_well_formed();
}
