//! Theorems about the ancestor relation under a schema. The functions are no-ops.
ghost use Rattle.entity_hierarchy.specs.Laws.{ReachDecides, MemberOfIsKept, MemberOfLeadsAlike, MemberOfGivesAlike};
ghost use Rattle.entity_hierarchy.specs.Laws.{MemberOfAnswersAlike, MemberOfPutsAlike, NoEntityIsAnAction};

use entities::{action_type_test_is_exact, stated_schemas_are_well_formed};

/// Proves that outcomes depend only on the attributes of the entities and on the ancestor relation. No-op.
///
/// Whichever edges give this relation, each expression has the same outcome, and each request has the same answer if no
/// entity is cyclic. If an entity is cyclic, the answer names a cycle, so the edges of the cycles must be the same too.
pub fn reach_decides()
    ensures { ReachDecides }
{}

/// Proves that an action has the parents that its `memberOf` lists, and that all its ancestors could be its parents
/// instead. No-op.
///
/// The ancestor relation and the cyclic entities would be the same, each expression would have the same outcome, and
/// each request the same answer, whatever entities are stored. An entity that is put, under any uid and with any
/// parents, would be cyclic in the same cases.
pub fn actions_may_be_closed()
    ensures kept { MemberOfIsKept }
    ensures alike { MemberOfLeadsAlike }
    ensures gives { MemberOfGivesAlike }
    ensures answers { MemberOfAnswersAlike }
    ensures puts { MemberOfPutsAlike }
{
    stated_schemas_are_well_formed();
}

/// Proves that an entity that is parsed under a schema is not one of the schema's actions, since the last word of each
/// action's type is `Action`, and no parsed entity has a type with this last word. No-op.
pub fn entities_are_no_actions()
    ensures { NoEntityIsAnAction }
{
    stated_schemas_are_well_formed();
    action_type_test_is_exact();
}
