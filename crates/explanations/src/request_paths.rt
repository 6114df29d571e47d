//! The search for the part of a request's JSON that is at fault.
ghost use Rattle.std.specs.Prelude.{◌≡◌, IfOk, option_map};
ghost use Rattle.serde_json.specs.View.{view};
ghost use Rattle.schema_types.specs.CedarViews.{cedar_view};
ghost use Rattle.entities.specs.entity_uids.Uids.{IsRead};
ghost use Rattle.schema_decisions.specs.schema.Views.{schema_view};
ghost use Rattle.entities.specs.Contexts.{context_where, is_place};
ghost use Rattle.explanations.specs.Outcomes.{IsRequestFault};
ghost use Rattle.explanations.specs.inner.FoundNames.{Names, AreNamed, IsFormSearched, IsPartSearched};
ghost use Rattle.explanations.specs.inner.FoundNames.{named_type};
ghost use Rattle.explanations.specs.RequestPaths.{IsContextType};

use crate::entity_paths::find_under;
use crate::forms::or_unmet;
use crate::part_faults::{PartFault, at_path, fault_of};
use crate::steps::{Trail, at_key};
use entities::{
    EntityFault, Environment, Schema, drop_request, drop_uid, is_absent_or_object, names_read_back,
    read_name, read_request,
};
use plain::{NoMemory, both, pair_with};
use schema_types::CedarType;
use serde_json::Value;
use std::alloc::Global;
use values::EntityUid;

/// Returns the entity that a value names, if it is present and names one.
fn name_at(alloc: Global, found: Option<&Value>) -> Result<Option<EntityUid>, NoMemory>
    ensures { IfOk result (IsRead (Names (option_map (λ v. view v.now) found.entry))) }
{
    match found {
        Some(value) => read_name(alloc, value),
        None => Ok(None),
    }
}

/// The entities that a request names as its principal, action and resource; `None` for one that is absent or a value
/// that names no entity.
struct Named {
    principal: Option<EntityUid>,
    action: Option<EntityUid>,
    resource: Option<EntityUid>,
}

/// Returns the entities that a request names.
fn names_in(alloc: Global, value: &Value) -> Result<Named, NoMemory>
    ensures { IfOk result (AreNamed (view value.now)) }
{
    match name_at(alloc, value.get("principal")) {
        Ok(principal) => {
            let action = name_at(alloc, value.get("action"));
            let resource = name_at(alloc, value.get("resource"));
            match pair_with(principal, both(action, resource)) {
                Ok((principal, others)) => Ok(Named {
                    principal,
                    action: others.0,
                    resource: others.1,
                }),
                Err(fault) => Err(fault),
            }
        }
        Err(fault) => Err(fault),
    }
}

/// Drops the uids that a request names.
fn drop_names(names: Named) {
    let Named {
        principal,
        action,
        resource,
    } = names;
    drop_uid(principal);
    drop_uid(action);
    drop_uid(resource);
}

/// Returns the path to the first part of a request that is missing or malformed, if there is one.
fn find_in_request_form<'p>(alloc: Global, value: &Value) -> Result<Option<Trail<'p>>, NoMemory>
    ensures { IfOk result (IsFormSearched (view value.now)) }
{
    if !value.is_object() {
        return Ok(Some(Trail::here(alloc)));
    }
    let from_context = or_unmet(is_absent_or_object(value.get("context")), "context", None);
    match names_in(alloc, value) {
        Ok(names) => {
            let from_resource = or_unmet(names.resource.is_some(), "resource", from_context);
            let from_action = or_unmet(names.action.is_some(), "action", from_resource);
            let unmet = or_unmet(names.principal.is_some(), "principal", from_action);
            drop_names(names);
            match unmet {
                Some(key) => at_key(alloc, key),
                None => Ok(None),
            }
        }
        Err(fault) => Err(fault),
    }
}

/// Returns whether an environment is that of this action and the types of these entities.
fn is_environment_of(
    environment: &Environment,
    principal: &EntityUid,
    action: &EntityUid,
    resource: &EntityUid,
) -> bool
    ensures { result ≡ is_place action.now principal.now.type_name resource.now.type_name environment.now.place }
{
    let place = &environment.place;
    place.action == *action
        && (place.principal.as_str() == principal.type_name.as_str()
            && place.resource.as_str() == resource.type_name.as_str())
}

/// Returns the type of the context of a request with these three entities, if the action applies to the types of the
/// other two.
fn context_type<'s>(
    schema: &'s Schema,
    principal: &EntityUid,
    action: &EntityUid,
    resource: &EntityUid,
) -> Option<&'s CedarType>
    ensures { option_map (λ t. cedar_view t.now) result ≡ context_where
        (is_place action.now principal.now.type_name resource.now.type_name) (schema_view schema.now).environments }
{
    let all = schema.environments();
    for environment in all {
        if is_environment_of(environment, principal, action, resource) {
            return Some(&environment.context);
        }
    }
    None
}

/// Returns the type of the context of a request with these three entities, if all are present and the action applies to
/// the types of the other two.
fn named_type<'s>(schema: &'s Schema, names: &Named) -> Option<&'s CedarType>
    ensures { option_map (λ t. cedar_view t.now) result
        ≡ named_type (schema_view schema.now) names.now.principal names.now.action names.now.resource }
{
    let Some(principal) = &names.principal else {
        return None;
    };
    let Some(action) = &names.action else {
        return None;
    };
    let Some(resource) = &names.resource else {
        return None;
    };
    context_type(schema, principal, action, resource)
}

/// Returns the type of the context of a request, if its action applies to its principal and its resource.
pub(crate) fn asked_type<'s>(
    alloc: Global,
    schema: &'s Schema,
    value: &Value,
) -> Result<Option<&'s CedarType>, NoMemory>
    ensures { IfOk result (λ o.
        IsContextType (schema_view schema.now) (view value.now) (option_map (λ t. cedar_view t.now) o)) }
{
    names_read_back();
    match names_in(alloc, value) {
        Ok(names) => {
            let ty = named_type(schema, &names);
            drop_names(names);
            Ok(ty)
        }
        Err(fault) => Err(fault),
    }
}

/// Returns the path to the part that an error is about.
fn find_part<'p>(
    alloc: Global,
    schema: &'p Schema,
    value: &'p Value,
    fault: EntityFault,
) -> Result<Option<Trail<'p>>, NoMemory>
    ensures { IfOk result (IsPartSearched (schema_view schema.entry.now) (view value.entry.now) fault) }
{
    match fault {
        EntityFault::BadShape => find_in_request_form(alloc, value),
        EntityFault::NotApplicable => at_key(alloc, "action"),
        _ => match asked_type(alloc, schema, value) {
            Ok(ty) => find_under(alloc, value, "context", ty),
            Err(fault) => Err(fault),
        },
    }
}

/// Returns the error of a value as a request under a schema, and the path to the part at fault; `None` if the value
/// describes a request. The call's only error is `NoMemory`. The keys of the path are borrowed from `schema` and
/// `value`, or are constants.
///
/// The path of `BadShape` leads to the first part of a request that is missing or malformed, and that of
/// `NotApplicable` to the action. The path of any other error leads to the innermost part of the context at fault, as
/// in [`entity_fault`](crate::entity_paths::entity_fault).
pub(crate) fn request_fault<'p>(
    alloc: Global,
    schema: &'p Schema,
    value: &'p Value,
) -> Result<Option<PartFault<'p>>, NoMemory>
    ensures { IfOk result (IsRequestFault (schema_view schema.entry.now) (view value.entry.now)) }
{
    let read = read_request(alloc, schema, value);
    let fault = fault_of(&read);
    drop_request(read);
    match fault {
        Ok(found) => match found {
            Some(fault) => at_path(fault, find_part(alloc, schema, value, fault)),
            None => Ok(None),
        },
        Err(memory) => Err(memory),
    }
}
