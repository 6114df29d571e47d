//! Theorems about what is parsed under a schema, and about answers over a store of such texts. The functions are
//! no-ops.
ghost use Rattle.site.specs.SoundReadings.{ValuesAreOfTheirTypes, RecordsAreOfTheirTypes};
ghost use Rattle.site.specs.SoundReadings.{EntitiesAreOfTheirTypes, RequestsAreOfAnEnvironment};
ghost use Rattle.site.specs.SoundWorlds.{ParsedDataConforms, ValidationIsSound};
ghost use Rattle.site.specs.SoundAnswers.{StoredPoliciesAreSound, StoredAnswersAreSound};

use entities::{action_type_test_is_exact, entities_read_back};
use site_meaning::{actions_may_be_closed, contents_are_the_texts, paths_are_decided};
use site_store::stated_schemas_are_well_formed;
use sync_messages::{parents_determine_ancestors, passing_policies_are_sound};
use values::sets_hold_their_members;

/// Proves that values, records and entity attributes that are parsed from JSON have their declared types, by the typing
/// rules, and that a request that is parsed under a schema is of an environment of the schema. No-op.
pub fn what_is_read_is_of_its_type()
    ensures values { ValuesAreOfTheirTypes }
    ensures records { RecordsAreOfTheirTypes }
    ensures entities { EntitiesAreOfTheirTypes }
    ensures requests { RequestsAreOfAnEnvironment }
{
    sets_hold_their_members();
}

/// Proves that entities and a request that were parsed under a schema that bytes describe conform to an environment of
/// the schema, with the schema's actions added to the entities. This is a premise of the soundness of validation.
/// No-op.
pub fn parsed_data_conforms()
    ensures { ParsedDataConforms }
{
    stated_schemas_are_well_formed();
    action_type_test_is_exact();
    entities_read_back();
    what_is_read_is_of_its_type();
    parents_determine_ancestors();
}

/// Proves that validation is sound over parsed entities. No-op.
///
/// Let finitely many entities and a request be parsed under a schema that bytes describe. Over them and the schema's
/// actions, a policy that passes validation gives a boolean, `EntityDoesNotExist` or `ArithBoundsError`; an impossible
/// policy never gives true.
pub fn validation_is_sound()
    ensures { ValidationIsSound }
{
    stated_schemas_are_well_formed();
    parsed_data_conforms();
    paths_are_decided();
    passing_policies_are_sound();
}

/// Proves that answers over a store are sound. No-op.
///
/// If the request and each text of the store were parsed under a schema that bytes describe, each policy of the store
/// gives a boolean, `EntityDoesNotExist` or `ArithBoundsError`, and an impossible policy never gives true. (A policy's
/// text is parsed under a schema only if the policy passes validation.) So no answer over the store reports an error of
/// type, of an attribute or of an extension function.
pub fn stored_answers_are_sound()
    ensures policies { StoredPoliciesAreSound }
    ensures answers { StoredAnswersAreSound }
{
    actions_may_be_closed();
    validation_is_sound();
    contents_are_the_texts();
}
