//! Theorems about types: their expansion, the names in them, and the order of their keys. The functions are no-ops.
ghost use Rattle.schema_types.specs.AscendingLaw.{JsonAscends, StatedTypesAscend, FoundTypesAscend, WrittenTypesAscend};
ghost use Rattle.schema_types.specs.Law.{OneWritten, CyclesHaveNoExpansion, WhatHasNoExpansionLeadsBack};
ghost use Rattle.schema_types.specs.Law.{TypesExpandOrSomeCommonDoesNot};
ghost use Rattle.schema_types.specs.Law.{ResolvedCommonsAreDeclared, FoundEntitiesAreDeclared, WrittenEntitiesAreNamed};

use json_words::json_keys_ascend;

/// Proves that a type has at most one expansion, if no name is declared with two definitions. No-op.
pub fn one_written()
    ensures { OneWritten }
{}

/// Proves that a common type that refers to itself, directly or not, has no expansion, if no name is declared with two
/// definitions. No-op.
pub fn cycles_have_no_expansion()
    ensures { CyclesHaveNoExpansion }
{}

/// Proves that a declared common type without an expansion refers to itself, directly or not, or leads to one that
/// does, if each common type that a declaration mentions is declared. No-op.
pub fn what_has_no_expansion_leads_back()
    ensures { WhatHasNoExpansionLeadsBack }
{}

/// Proves that, if each common type that is mentioned is declared, with one definition, then each type has an
/// expansion, or some declared common type has none. No-op.
pub fn types_expand_or_some_common_does_not()
    ensures { TypesExpandOrSomeCommonDoesNot }
{
    cycles_have_no_expansion();
}

/// Proves that the names in a type with resolved names are declared. No-op.
pub fn found_names_are_declared()
    ensures commons { ResolvedCommonsAreDeclared }
    ensures entities { FoundEntitiesAreDeclared }
{}

/// Proves that an entity type that the expansion of a type mentions is mentioned in the type itself or in a declared
/// common type. No-op.
pub fn written_entities_are_named()
    ensures { WrittenEntitiesAreNamed }
{}

/// Proves that the keys of each record ascend strictly: in parsed JSON, in the types that it describes, and in these
/// types with resolved names. If the keys in a type and in each declared common type ascend, so do those in the type's
/// expansion. No-op.
pub fn keys_ascend()
    ensures json { JsonAscends }
    ensures stated { StatedTypesAscend }
    ensures found { FoundTypesAscend }
    ensures written { WrittenTypesAscend }
{
    json_keys_ascend();
}
