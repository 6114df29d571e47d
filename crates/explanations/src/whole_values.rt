//! The search in JSON values without parts, which a type accepts or rejects as a whole.
ghost use Rattle.std.specs.Prelude.{◌≡◌, IfOk};
ghost use Rattle.serde_json.specs.View.{view};
ghost use Rattle.schema_types.specs.CedarViews.{cedar_view};
ghost use Rattle.entities.specs.Typing.{typed_value};
ghost use Rattle.explanations.specs.inner.FoundPaths.{whole_path};

use crate::steps::Trail;
use entities::is_of_type;
use plain::NoMemory;
use schema_types::CedarType;
use serde_json::Value;
use std::alloc::Global;

/// Returns the path of a value to itself if the type rejects the value, else `None`.
pub(crate) fn find_whole<'p>(
    alloc: Global,
    value: &Value,
    ty: &CedarType,
) -> Result<Option<Trail<'p>>, NoMemory>
    ensures { IfOk result (λ o. o ≡ whole_path (typed_value (cedar_view ty.now) (view value.now))) }
{
    match is_of_type(alloc, value, ty) {
        Ok(true) => Ok(None),
        Ok(false) => Ok(Some(Trail::here(alloc))),
        Err(fault) => Err(fault),
    }
}
