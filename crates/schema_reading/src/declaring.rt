//! The names that a schema file declares. `own` is the name of the namespace that has a declaration; `None` is the
//! empty namespace.
ghost use Rattle.std.specs.Prelude.{◌≡◌, OnOk, IfOk, map, string_bytes};
ghost use Rattle.std.specs.Ordering.{is_eq};
ghost use Rattle.std.specs.Str.{bytes_eq};
ghost use Rattle.values.specs.Names.{uid_cmp};
ghost use Rattle.schema_types.specs.Names.{full_name};
ghost use Rattle.schema_reading.specs.inner.StatedViews.{common_view, entity_type_view, action_view, namespace_view};
ghost use Rattle.schema_reading.specs.Qualifying.{common_in};
ghost use Rattle.schema_types.specs.Actions.{action_type, action_uid};
ghost use Rattle.schema_reading.specs.inner.Adding.{has_name, has_uid, IsUnionWith};
ghost use Rattle.schema_reading.specs.inner.Adding.{AddsNamespace, Declares, any_common};
ghost use Rattle.schema_reading.specs.inner.Adding.{any_name, any_uid};

use crate::qualifying::uid_of;
use crate::stated::{StatedAction, StatedCommon, StatedEntityType, StatedNamespace};
use plain::NoMemory;
use schema_types::{Names, full_name};
use std::alloc::Global;
use std::collections::BTreeSet;
use values::{EntityUid, TypeName};

/// Returns the full name of a declaration in the namespace `own`, as a new string.
pub(crate) fn full_text(
    alloc: Global,
    own: &Option<TypeName>,
    word: &TypeName,
) -> Result<String, NoMemory>
    ensures { IfOk result (λ text. string_bytes text ≡ full_name own.now word.now) }
{
    let full = full_name(alloc, own, word)?;
    Ok(String::from_str(alloc, full.as_str())?)
}

/// Adds the full name of a declaration to the declared names.
fn add_name(
    alloc: Global,
    declared: &mut BTreeSet<String>,
    own: &Option<TypeName>,
    word: &TypeName,
) -> Result<(), NoMemory>
    ensures { OnOk result
        (IsUnionWith has_name (λ q. bytes_eq (full_name own.now word.now) q) declared.old declared.new) }
{
    let text = full_text(alloc, own, word)?;
    declared.insert(text)?;
    Ok(())
}

/// Adds the full names of the common types of a namespace.
fn add_commons(
    alloc: Global,
    declared: &mut BTreeSet<String>,
    own: &Option<TypeName>,
    stated: &[StatedCommon],
) -> Result<(), NoMemory>
    ensures { OnOk result (IsUnionWith has_name
        (any_common (map (λ c. common_in own.now c) (map common_view stated.now))) declared.old declared.new) }
{
    for common in stated {
        add_name(alloc, declared, own, &common.name)?;
    }
    Ok(())
}

/// Adds the full names of the entity types of a namespace.
fn add_entity_types(
    alloc: Global,
    declared: &mut BTreeSet<String>,
    own: &Option<TypeName>,
    stated: &[StatedEntityType],
) -> Result<(), NoMemory>
    ensures { OnOk result (IsUnionWith has_name
        (any_name (map (λ e. full_name own.now e.name) (map entity_type_view stated.now))) declared.old declared.new) }
{
    for entity_type in stated {
        add_name(alloc, declared, own, &entity_type.name)?;
    }
    Ok(())
}

/// Adds the uid of an action of a namespace.
fn add_action(
    alloc: Global,
    declared: &mut BTreeSet<EntityUid>,
    own: &Option<TypeName>,
    action: &StatedAction,
) -> Result<(), NoMemory>
    ensures { OnOk result (IsUnionWith has_uid
        (λ u. is_eq (uid_cmp (action_uid (action_type own.now) action.now.id) u)) declared.old declared.new) }
{
    let uid = uid_of(alloc, own, &action.id)?;
    declared.insert(uid)?;
    Ok(())
}

/// Adds the uids of the actions of a namespace.
fn add_actions(
    alloc: Global,
    declared: &mut BTreeSet<EntityUid>,
    own: &Option<TypeName>,
    stated: &[StatedAction],
) -> Result<(), NoMemory>
    ensures { OnOk result (IsUnionWith has_uid
        (any_uid (map (λ a. action_uid (action_type own.now) a.id) (map action_view stated.now)))
        declared.old declared.new) }
{
    for action in stated {
        add_action(alloc, declared, own, action)?;
    }
    Ok(())
}

/// Adds the names and uids of the declarations of a namespace.
fn add_namespace(
    alloc: Global,
    names: &mut Names,
    namespace: &StatedNamespace,
) -> Result<(), NoMemory>
    ensures { OnOk result (AddsNamespace (namespace_view namespace.now) names.old names.new) }
{
    let own = &namespace.name;
    add_commons(alloc, &mut names.commons, own, namespace.commons.as_slice())?;
    add_entity_types(
        alloc,
        &mut names.entities,
        own,
        namespace.entity_types.as_slice(),
    )?;
    add_actions(alloc, &mut names.actions, own, namespace.actions.as_slice())?;
    Ok(())
}

/// Returns the names that these namespaces declare. The only error is `NoMemory`.
pub(crate) fn declare(alloc: Global, stated: &[StatedNamespace]) -> Result<Names, NoMemory>
    ensures { IfOk result (λ n. Declares (map namespace_view stated.now) n) }
{
    let mut names = Names {
        commons: BTreeSet::new(alloc),
        entities: BTreeSet::new(alloc),
        actions: BTreeSet::new(alloc),
    };
    for namespace in stated {
        add_namespace(alloc, &mut names, namespace)?;
    }
    Ok(names)
}
