//! The resolution of the names in a schema file. `own` is the name of the namespace that uses a name; `None` is the
//! empty namespace. The only errors are `UnknownName` (22), for a name that does not resolve, and `NoMemory` (1).
ghost use Rattle.std.specs.Prelude.{◌≡◌, IfOk, map, option_map};
ghost use Rattle.json_words.specs.ReadsAs.{ReadsAs};
ghost use Rattle.schema_types.specs.Views.{raw_view};
ghost use Rattle.schema_types.specs.QualifiedViews.{qualified_view, resolved_common_view};
ghost use Rattle.schema_types.specs.NamesViews.{scope_of, is_action_of};
ghost use Rattle.schema_types.specs.Actions.{action_type, action_uid};
ghost use Rattle.schema_reading.specs.inner.StatedViews.{common_view, entity_type_view, applies_to_view, action_view};
ghost use Rattle.schema_reading.specs.inner.StatedViews.{namespace_view};
ghost use Rattle.schema_reading.specs.ResolvedViews.{resolved_entity_type_view, resolved_applies_to_view};
ghost use Rattle.schema_reading.specs.ResolvedViews.{resolved_action_view, resolved_view};
ghost use Rattle.schema_reading.specs.Qualifying.{action_meant};
ghost use Rattle.schema_reading.specs.Qualifying.{parent_named, parents_named, entity_type_named, entity_types_named};
ghost use Rattle.schema_reading.specs.Qualifying.{type_named, qualified_common, qualified_entity_type, qualified_use};
ghost use Rattle.schema_reading.specs.Qualifying.{applies_to_named, qualified_action, qualified_commons};
ghost use Rattle.schema_reading.specs.Qualifying.{qualified_entity_types};
ghost use Rattle.schema_reading.specs.Qualifying.{qualified_actions, qualified_namespace, qualified_namespaces};
ghost use Rattle.schema_types.specs.declared.fault.SchemaFault.TheVariants as SchemaFault;

use crate::appending_items::followed_by;
use crate::stated::{
    StatedAction, StatedAppliesTo, StatedCommon, StatedEntityType, StatedNamespace, StatedParent,
};
use plain::{Items, NoMemory, Text, pair_with};
use schema_types::{
    Names, QualifiedType, RawType, ResolvedCommon, SchemaFault, action_type, declared_action, find,
    find_action_of_type, full_name, resolve,
};
use std::alloc::Global;
use values::{EntityUid, SharedText, TypeName};

/// An entity type with its full name, and with the names in it resolved.
#[derive(Drop)]
pub struct ResolvedEntityType {
    /// Its full name.
    pub name: TypeName,
    /// The full names of its parent types, in the order of `memberOfTypes`.
    pub parents: Items<TypeName>,
    /// The type of its entities' attributes, if the file has one.
    pub shape: Option<QualifiedType>,
}

/// What an action applies to, with resolved names.
#[derive(Drop)]
pub struct ResolvedAppliesTo {
    /// The full names of the types of principals.
    pub principals: Items<TypeName>,
    /// The full names of the types of resources.
    pub resources: Items<TypeName>,
    /// The type of the context, if the file has one.
    pub context: Option<QualifiedType>,
}

/// An action with its uid, and with the names in it resolved.
#[derive(Drop)]
pub struct ResolvedAction {
    pub uid: EntityUid,
    /// The uids of its parents, in the order of `memberOf`.
    pub parents: Items<EntityUid>,
    /// What it applies to; `None` if the file has no `appliesTo` for it, so that it applies to no request.
    pub applies_to: Option<ResolvedAppliesTo>,
}

/// The declarations of a namespace, or of a whole file, with resolved names.
#[derive(Drop)]
pub struct ResolvedFile {
    pub commons: Items<ResolvedCommon>,
    pub entity_types: Items<ResolvedEntityType>,
    pub actions: Items<ResolvedAction>,
}

/// Returns the full name of the entity type that a name means in the namespace `own`, or `UnknownName` (22).
fn qualify_name(
    alloc: Global,
    names: &Names,
    own: &Option<TypeName>,
    word: &TypeName,
) -> Result<TypeName, SchemaFault>
    ensures { ReadsAs SchemaFault.NoMemory (λ t. t) result (entity_type_named (scope_of names.now) own.now word.now) }
{
    match find(alloc, &names.entities, own, word)? {
        Some(name) => Ok(name),
        None => Err(SchemaFault::UnknownName),
    }
}

/// Returns the full names of the entity types that the names mean, or the first error.
fn qualify_names(
    alloc: Global,
    names: &Names,
    own: &Option<TypeName>,
    words: &[TypeName],
) -> Result<Items<TypeName>, SchemaFault>
    ensures { ReadsAs SchemaFault.NoMemory (λ ns. ns) result
        (entity_types_named (scope_of names.now) own.now words.now) }
{
    let mut found = Items::new(alloc);
    for word in words {
        found = followed_by(found, qualify_name(alloc, names, own, word))?;
    }
    Ok(found)
}

/// Returns the type, if there is one, with resolved names.
fn qualify_optional(
    alloc: Global,
    names: &Names,
    own: &Option<TypeName>,
    ty: &Option<RawType>,
) -> Result<Option<QualifiedType>, SchemaFault>
    ensures { ReadsAs SchemaFault.NoMemory (option_map qualified_view) result
        (type_named (scope_of names.now) own.now (option_map raw_view ty.now)) }
{
    match ty {
        None => Ok(None),
        Some(ty) => Ok(Some(resolve(alloc, names, own, ty)?)),
    }
}

/// Returns a common type of a namespace with resolved names.
#[tactic(auto, unfolding(crate::specs::Qualifying::qualified_common))]
fn qualify_common(
    alloc: Global,
    names: &Names,
    own: &Option<TypeName>,
    common: &StatedCommon,
) -> Result<ResolvedCommon, SchemaFault>
    ensures { ReadsAs SchemaFault.NoMemory resolved_common_view result
        (qualified_common (scope_of names.now) own.now (common_view common.now)) }
{
    let name = full_name(alloc, own, &common.name)?;
    let (name, ty) = pair_with(name, resolve(alloc, names, own, &common.ty))?;
    Ok(ResolvedCommon { name, ty })
}

/// Returns an entity type of a namespace with resolved names.
#[tactic(auto, unfolding(crate::specs::Qualifying::qualified_entity_type))]
fn qualify_entity_type(
    alloc: Global,
    names: &Names,
    own: &Option<TypeName>,
    entity_type: &StatedEntityType,
) -> Result<ResolvedEntityType, SchemaFault>
    ensures { ReadsAs SchemaFault.NoMemory resolved_entity_type_view result
        (qualified_entity_type (scope_of names.now) own.now (entity_type_view entity_type.now)) }
{
    let name = full_name(alloc, own, &entity_type.name)?;
    let parents = qualify_names(alloc, names, own, entity_type.parents.as_slice());
    let (name, parents) = pair_with(name, parents)?;
    let shape = qualify_optional(alloc, names, own, &entity_type.shape);
    let ((name, parents), shape) = pair_with((name, parents), shape)?;
    Ok(ResolvedEntityType {
        name,
        parents,
        shape,
    })
}

/// Returns what an action applies to, with resolved names.
#[tactic(auto, unfolding(crate::specs::Qualifying::qualified_use))]
fn qualify_use(
    alloc: Global,
    names: &Names,
    own: &Option<TypeName>,
    stated: &StatedAppliesTo,
) -> Result<ResolvedAppliesTo, SchemaFault>
    ensures { ReadsAs SchemaFault.NoMemory resolved_applies_to_view result
        (qualified_use (scope_of names.now) own.now (applies_to_view stated.now)) }
{
    let principals = qualify_names(alloc, names, own, stated.principals.as_slice())?;
    let resources = qualify_names(alloc, names, own, stated.resources.as_slice());
    let (principals, resources) = pair_with(principals, resources)?;
    let context = qualify_optional(alloc, names, own, &stated.context);
    let ((principals, resources), context) = pair_with((principals, resources), context)?;
    Ok(ResolvedAppliesTo {
        principals,
        resources,
        context,
    })
}

/// Returns what an action applies to, if the file has it, with resolved names.
fn qualify_optional_use(
    alloc: Global,
    names: &Names,
    own: &Option<TypeName>,
    stated: &Option<StatedAppliesTo>,
) -> Result<Option<ResolvedAppliesTo>, SchemaFault>
    ensures { ReadsAs SchemaFault.NoMemory (option_map resolved_applies_to_view) result
        (applies_to_named (scope_of names.now) own.now (option_map applies_to_view stated.now)) }
{
    match stated {
        None => Ok(None),
        Some(stated) => Ok(Some(qualify_use(alloc, names, own, stated)?)),
    }
}

/// Returns the declared action that a member of `memberOf` means, if there is one.
fn find_action(
    alloc: Global,
    names: &Names,
    own: &Option<TypeName>,
    parent: &StatedParent,
) -> Result<Option<EntityUid>, NoMemory>
    ensures { IfOk result (λ o. o ≡ action_meant (is_action_of names.now) own.now parent.now) }
{
    match &parent.type_name {
        Some(word) => find_action_of_type(alloc, names, own, word, &parent.id),
        None => declared_action(alloc, names, action_type(alloc, own)?, &parent.id),
    }
}

/// Returns the declared action that a member of `memberOf` means, or `UnknownName` (22).
#[tactic(auto, unfolding(crate::specs::Qualifying::parent_named))]
fn qualify_parent(
    alloc: Global,
    names: &Names,
    own: &Option<TypeName>,
    parent: &StatedParent,
) -> Result<EntityUid, SchemaFault>
    ensures { ReadsAs SchemaFault.NoMemory (λ u. u) result (parent_named (is_action_of names.now) own.now parent.now) }
{
    match find_action(alloc, names, own, parent)? {
        Some(uid) => Ok(uid),
        None => Err(SchemaFault::UnknownName),
    }
}

/// Returns the actions that the members of `memberOf` mean, or the first error.
fn qualify_parents(
    alloc: Global,
    names: &Names,
    own: &Option<TypeName>,
    parents: &[StatedParent],
) -> Result<Items<EntityUid>, SchemaFault>
    ensures { ReadsAs SchemaFault.NoMemory (λ us. us) result
        (parents_named (is_action_of names.now) own.now parents.now) }
{
    let mut found = Items::new(alloc);
    for parent in parents {
        found = followed_by(found, qualify_parent(alloc, names, own, parent))?;
    }
    Ok(found)
}

/// Returns the uid of an action of a namespace.
pub(crate) fn uid_of(
    alloc: Global,
    own: &Option<TypeName>,
    id: &Text,
) -> Result<EntityUid, NoMemory>
    ensures { IfOk result (λ u. u ≡ action_uid (action_type own.now) id.now) }
{
    let type_name = action_type(alloc, own)?;
    let (type_name, id) = pair_with(type_name, SharedText::from_str(alloc, id.as_str()))?;
    Ok(EntityUid { type_name, id })
}

/// Returns an action of a namespace with resolved names.
#[tactic(auto, unfolding(crate::specs::Qualifying::qualified_action))]
fn qualify_action(
    alloc: Global,
    names: &Names,
    own: &Option<TypeName>,
    action: &StatedAction,
) -> Result<ResolvedAction, SchemaFault>
    ensures { ReadsAs SchemaFault.NoMemory resolved_action_view result
        (qualified_action (scope_of names.now) (is_action_of names.now) own.now (action_view action.now)) }
{
    let uid = uid_of(alloc, own, &action.id)?;
    let parents = qualify_parents(alloc, names, own, action.parents.as_slice());
    let (uid, parents) = pair_with(uid, parents)?;
    let applies_to = qualify_optional_use(alloc, names, own, &action.applies_to);
    let ((uid, parents), applies_to) = pair_with((uid, parents), applies_to)?;
    Ok(ResolvedAction {
        uid,
        parents,
        applies_to,
    })
}

/// Returns the common types of a namespace with resolved names.
fn qualify_commons(
    alloc: Global,
    names: &Names,
    own: &Option<TypeName>,
    stated: &[StatedCommon],
) -> Result<Items<ResolvedCommon>, SchemaFault>
    ensures { ReadsAs SchemaFault.NoMemory (map resolved_common_view) result
        (qualified_commons (scope_of names.now) own.now (map common_view stated.now)) }
{
    let mut found = Items::new(alloc);
    for item in stated {
        found = followed_by(found, qualify_common(alloc, names, own, item))?;
    }
    Ok(found)
}

/// Returns the entity types of a namespace with resolved names.
fn qualify_entity_types(
    alloc: Global,
    names: &Names,
    own: &Option<TypeName>,
    stated: &[StatedEntityType],
) -> Result<Items<ResolvedEntityType>, SchemaFault>
    ensures { ReadsAs SchemaFault.NoMemory (map resolved_entity_type_view) result
        (qualified_entity_types (scope_of names.now) own.now (map entity_type_view stated.now)) }
{
    let mut found = Items::new(alloc);
    for item in stated {
        found = followed_by(found, qualify_entity_type(alloc, names, own, item))?;
    }
    Ok(found)
}

/// Returns the actions of a namespace with resolved names.
fn qualify_actions(
    alloc: Global,
    names: &Names,
    own: &Option<TypeName>,
    stated: &[StatedAction],
) -> Result<Items<ResolvedAction>, SchemaFault>
    ensures { ReadsAs SchemaFault.NoMemory (map resolved_action_view) result
        (qualified_actions (scope_of names.now) (is_action_of names.now) own.now (map action_view stated.now)) }
{
    let mut found = Items::new(alloc);
    for item in stated {
        found = followed_by(found, qualify_action(alloc, names, own, item))?;
    }
    Ok(found)
}

/// Returns a namespace with resolved names.
#[tactic(auto, unfolding(crate::specs::Qualifying::qualified_namespace))]
pub(crate) fn qualify_namespace(
    alloc: Global,
    names: &Names,
    namespace: &StatedNamespace,
) -> Result<ResolvedFile, SchemaFault>
    ensures { ReadsAs SchemaFault.NoMemory resolved_view result
        (qualified_namespace (scope_of names.now) (is_action_of names.now) (namespace_view namespace.now)) }
{
    let own = &namespace.name;
    let commons = qualify_commons(alloc, names, own, namespace.commons.as_slice())?;
    let entity_types = qualify_entity_types(alloc, names, own, namespace.entity_types.as_slice());
    let (commons, entity_types) = pair_with(commons, entity_types)?;
    let actions = qualify_actions(alloc, names, own, namespace.actions.as_slice());
    let ((commons, entity_types), actions) = pair_with((commons, entity_types), actions)?;
    Ok(ResolvedFile {
        commons,
        entity_types,
        actions,
    })
}

/// Returns the namespaces with resolved names.
///
/// # Errors
///
/// - `UnknownName` (22): a name does not resolve.
/// - `NoMemory` (1): an allocation failed; possible at any point.
pub(crate) fn qualify_namespaces(
    alloc: Global,
    names: &Names,
    stated: &[StatedNamespace],
) -> Result<Items<ResolvedFile>, SchemaFault>
    ensures { ReadsAs SchemaFault.NoMemory (map resolved_view) result
        (qualified_namespaces (scope_of names.now) (is_action_of names.now) (map namespace_view stated.now)) }
{
    let mut found = Items::new(alloc);
    for item in stated {
        found = followed_by(found, qualify_namespace(alloc, names, item))?;
    }
    Ok(found)
}
