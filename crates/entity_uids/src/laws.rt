//! Theorems about uids as JSON. The function is a no-op.
ghost use Rattle.entity_uids.specs.Laws.{OneUid, OneName, UidsAreFound, WrittenIsRead};

use policy_grammar::texts_have_one_reading;
use values::path_tests_are_exact;

/// Proves that a JSON value names at most one entity, even where a string is allowed. `uid_in` finds the entity that a
/// value names as a uid. The JSON written for an entity names it, if its type is a Path. No-op.
pub fn names_read_back()
    ensures one { OneUid }
    ensures name { OneName }
    ensures found { UidsAreFound }
    ensures back { WrittenIsRead }
{
    path_tests_are_exact();
    texts_have_one_reading();
}
