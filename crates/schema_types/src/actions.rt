//! Actions by type and id: the lookup of the action to which a schema refers.
ghost use Rattle.std.specs.Prelude.{◌≡◌, IfOk};
ghost use Rattle.schema_types.specs.Actions.{action_type, action_uid, declared_action, action_of_type};
ghost use Rattle.schema_types.specs.NamesViews.{is_action_of};

use crate::names::{Names, full_name, is_qualified};
use plain::{NoMemory, Text};
use std::alloc::Global;
use values::{EntityUid, SharedText, TypeName};

/// Returns the type of the actions of the namespace `own`; `None` is the empty one. The only error is `NoMemory`.
pub fn action_type(alloc: Global, own: &Option<TypeName>) -> Result<TypeName, NoMemory>
    ensures { IfOk result (λ t. t ≡ action_type own.now) }
{
    let word = TypeName::from_words(alloc, ["Action"].as_slice())?;
    full_name(alloc, own, &word)
}

/// Returns the uid with this type and a copy of this id.
fn action_uid(alloc: Global, type_name: TypeName, id: &Text) -> Result<EntityUid, NoMemory>
    ensures { IfOk result (λ u. u ≡ action_uid type_name id.now) }
{
    let id = SharedText::from_str(alloc, id.as_str())?;
    Ok(EntityUid { type_name, id })
}

/// Returns the action of this type and id, if it is declared. The only error is `NoMemory`.
pub fn declared_action(
    alloc: Global,
    names: &Names,
    type_name: TypeName,
    id: &Text,
) -> Result<Option<EntityUid>, NoMemory>
    ensures { IfOk result (λ o. o ≡ declared_action (is_action_of names.now) type_name id.now) }
{
    let uid = action_uid(alloc, type_name, id)?;
    if names.actions.contains(&uid) {
        return Ok(Some(uid));
    }
    Ok(None)
}

/// Returns the declared action to which the type `word` and an id refer, if there is one. An unqualified type is
/// resolved in the namespace `own`, then in the empty one. The only error is `NoMemory`.
#[tactic(auto, unfolding(crate::specs::Actions::action_of_type))]
pub fn find_action_of_type(
    alloc: Global,
    names: &Names,
    own: &Option<TypeName>,
    word: &TypeName,
    id: &Text,
) -> Result<Option<EntityUid>, NoMemory>
    ensures { IfOk result (λ o. o ≡ action_of_type (is_action_of names.now) own.now word.now id.now) }
{
    if !is_qualified(word.as_str()) {
        let full = full_name(alloc, own, word)?;
        if let Some(uid) = declared_action(alloc, names, full, id)? {
            return Ok(Some(uid));
        }
    }
    declared_action(alloc, names, word.copy()?, id)
}
