//! The search for a parent that an entity may not have.
ghost use Rattle.std.specs.Prelude.{◌≡◌, ◌&&◌, not, IfOk, Some, None, option_map, codes};
ghost use Rattle.serde_json.specs.View.{view, items_view};
ghost use Rattle.serde_json.specs.Find.{get};
ghost use Rattle.entities.specs.Typing.{with_or};
ghost use Rattle.schema_decisions.specs.schema.Views.{schema_view};
ghost use Rattle.explanations.specs.EntityPaths.{items_at};
ghost use Rattle.explanations.specs.inner.FoundParts.{fits, unfit_path, parents_path};

use crate::forms::{at_parent, uid_at};
use crate::steps::Trail;
use entities::{Schema, drop_uid, read_uid};
use plain::NoMemory;
use serde_json::Value;
use std::alloc::Global;
use values::EntityUid;

/// Returns whether an entity may have this parent.
fn fits(schema: &Schema, uid: &EntityUid, parent: &EntityUid) -> bool
    ensures { result ≡ fits (schema_view schema.now) uid.now parent.now }
{
    parent != uid && schema.may_have_parent(&uid.type_name, &parent.type_name)
}

/// Returns the path to the first of these parents that an entity may not have; `None` if it may have
/// all parents before the first item that is not a uid.
fn find_unfit<'p>(
    alloc: Global,
    schema: &Schema,
    uid: &EntityUid,
    parents: &[Value],
) -> Result<Option<Trail<'p>>, NoMemory>
    ensures { IfOk result
        (λ o. o ≡ unfit_path (schema_view schema.now) uid.now 0 (items_view parents.now)) }
{
    for (index, parent) in parents.iter().enumerate() {
        let parent = match read_uid(alloc, parent) {
            Ok(found) => match found {
                Some(parent) => parent,
                None => return Ok(None),
            },
            Err(fault) => return Err(fault),
        };
        let fit = fits(schema, uid, &parent);
        drop_uid(Some(parent));
        if !fit {
            return at_parent(alloc, index);
        }
    }
    Ok(None)
}

/// Returns the path that [`find_unfit`] finds in the array `found`; `None` if `found` is not an array.
#[tactic(auto, unfolding(crate::specs::inner::FoundParts::unfit_path))]
fn find_unfit_at<'p>(
    alloc: Global,
    schema: &Schema,
    uid: &EntityUid,
    found: Option<&Value>,
) -> Result<Option<Trail<'p>>, NoMemory>
    ensures { IfOk result (λ o. o ≡ unfit_path (schema_view schema.now) uid.now 0
        (items_at (option_map (λ v. view v.now) found.entry))) }
{
    match found {
        None => Ok(None),
        Some(value) => match value.as_array() {
            Some(parents) => find_unfit(alloc, schema, uid, parents),
            None => Ok(None),
        },
    }
}

/// Returns the path to the first parent that the entity of a value may not have; `None` if there is no such parent, or
/// if an earlier parent or the uid of the entity does not parse.
#[tactic(auto, unfolding(crate::specs::inner::FoundParts::parents_path))]
pub(crate) fn find_bad_parent<'p>(
    alloc: Global,
    schema: &Schema,
    value: &Value,
) -> Result<Option<Trail<'p>>, NoMemory>
    ensures { IfOk result (λ o. o ≡ parents_path (schema_view schema.now) (view value.now)) }
{
    match uid_at(alloc, value.get("uid")) {
        Ok(Some(uid)) => {
            let found = find_unfit_at(alloc, schema, &uid, value.get("parents"));
            drop_uid(Some(uid));
            found
        }
        Ok(None) => Ok(None),
        Err(fault) => Err(fault),
    }
}
