//! The search for the part of an entity's JSON that is at fault.
ghost use Rattle.std.specs.Prelude.{◌≡◌, IfOk, option_map};
ghost use Rattle.serde_json.specs.View.{view};
ghost use Rattle.schema_types.specs.CedarViews.{cedar_view};
ghost use Rattle.schema_decisions.specs.schema.Views.{schema_view};
ghost use Rattle.explanations.specs.Outcomes.{IsEntityFault};
ghost use Rattle.explanations.specs.inner.FoundPaths.{path_under};
ghost use Rattle.explanations.specs.EntityPaths.{shape_at};
ghost use Rattle.explanations.specs.inner.FoundParts.{path_of};

use crate::forms::{find_in_form, uid_at};
use crate::parents::find_bad_parent;
use crate::part_faults::{PartFault, at_path, fault_of};
use crate::steps::{Trail, at_key, under_key};
use crate::value_search::find_in_record;
use entities::{EntityFault, Schema, drop_entity, drop_uid, read_entity};
use plain::NoMemory;
use schema_types::CedarType;
use serde_json::Value;
use std::alloc::Global;

/// Returns the shape of the type of the entity that a value names, if it names one and the type is declared.
pub(crate) fn shape_at<'s>(
    alloc: Global,
    schema: &'s Schema,
    found: Option<&Value>,
) -> Result<Option<&'s CedarType>, NoMemory>
    ensures { IfOk result (λ o. option_map (λ t. cedar_view t.now) o
        ≡ shape_at (schema_view schema.now) (option_map (λ v. view v.now) found.entry)) }
{
    match uid_at(alloc, found) {
        Ok(Some(uid)) => {
            let entity_type = schema.entity_type(&uid.type_name);
            drop_uid(Some(uid));
            match entity_type {
                Some(entity_type) => Ok(Some(&entity_type.shape)),
                None => Ok(None),
            }
        }
        Ok(None) => Ok(None),
        Err(fault) => Err(fault),
    }
}

/// Returns the path to the part at fault, if there is one, in the member of `value` at `key`, whose type is `ty`. An
/// absent member counts as an empty object. If `ty` is `None`, returns `None`.
pub(crate) fn find_under<'p>(
    alloc: Global,
    value: &'p Value,
    key: &'p str,
    ty: Option<&'p CedarType>,
) -> Result<Option<Trail<'p>>, NoMemory>
    ensures { IfOk result
        (λ o. o ≡ path_under key.entry.now (option_map (λ t. cedar_view t.now) ty.entry) (view value.entry.now)) }
{
    match ty {
        Some(ty) => under_key(key, find_in_record(alloc, value.get(key), ty)),
        None => Ok(None),
    }
}

/// Returns the path to the part that an error is about.
fn find_part<'p>(
    alloc: Global,
    schema: &'p Schema,
    value: &'p Value,
    fault: EntityFault,
) -> Result<Option<Trail<'p>>, NoMemory>
    ensures { IfOk result (λ o. o ≡ path_of (schema_view schema.entry.now) (view value.entry.now) fault) }
{
    match fault {
        EntityFault::BadShape => find_in_form(alloc, value),
        EntityFault::UnknownType | EntityFault::ActionEntity => at_key(alloc, "uid"),
        EntityFault::TagsLeftOut => at_key(alloc, "tags"),
        EntityFault::BadParent | EntityFault::SelfParent => find_bad_parent(alloc, schema, value),
        _ => match shape_at(alloc, schema, value.get("uid")) {
            Ok(shape) => find_under(alloc, value, "attrs", shape),
            Err(fault) => Err(fault),
        },
    }
}

/// Returns the error of a value as an entity under a schema, and the path to the part at fault; `None` if the value
/// describes an entity. The call's only error is `NoMemory`. The keys of the path are borrowed from `schema` and
/// `value`, or are constants.
///
/// The path of `BadShape` leads to the first part of an entity that is missing or malformed; that of `UnknownType` and
/// `ActionEntity`, to the uid; that of `TagsLeftOut`, to the tags; that of `BadParent` and `SelfParent`, to the first
/// parent that the entity may not have. The path of any other error leads to the innermost part of the attributes at
/// fault: an item, a member, or a required key that is absent.
///
/// Parses `value` again. The search is then O(n f), where n is the number of members of objects and items of
/// arrays in `value`, and f the greatest number of fields of a record type.
pub(crate) fn entity_fault<'p>(
    alloc: Global,
    schema: &'p Schema,
    value: &'p Value,
) -> Result<Option<PartFault<'p>>, NoMemory>
    ensures { IfOk result (IsEntityFault (schema_view schema.entry.now) (view value.entry.now)) }
{
    let read = read_entity(alloc, schema, value);
    let fault = fault_of(&read);
    drop_entity(read);
    match fault {
        Ok(found) => match found {
            Some(fault) => at_path(fault, find_part(alloc, schema, value, fault)),
            None => Ok(None),
        },
        Err(memory) => Err(memory),
    }
}
