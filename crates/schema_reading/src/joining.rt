//! The declarations of several namespaces, joined.
ghost use Rattle.std.specs.Prelude.{◌≡◌, ◌++◌, IfOk, map};
ghost use Rattle.schema_reading.specs.Qualifying.{both, together};
ghost use Rattle.schema_reading.specs.ResolvedViews.{resolved_view};

use crate::qualifying::ResolvedFile;
use plain::{Items, NoMemory, both};
use std::alloc::Global;

/// Returns the items of both lists, in order.
fn append<T: Drop>(items: Items<T>, more: Items<T>) -> Result<Items<T>, NoMemory>
    ensures { IfOk result (λ whole. whole ≡ items ++ more) }
{
    let mut whole = items.into_vec();
    let mut rest = more.into_vec();
    whole.append(&mut rest)?;
    Ok(Items::from_vec(whole))
}

/// Returns the declarations of both files or namespaces.
fn join(first: ResolvedFile, second: ResolvedFile) -> Result<ResolvedFile, NoMemory>
    ensures { IfOk result (λ found. resolved_view found ≡ both (resolved_view first) (resolved_view second)) }
{
    let commons = append(first.commons, second.commons);
    let entity_types = append(first.entity_types, second.entity_types);
    let actions = append(first.actions, second.actions);
    let ((commons, entity_types), actions) = both(both(commons, entity_types), actions)?;
    Ok(ResolvedFile {
        commons,
        entity_types,
        actions,
    })
}

/// Returns the declarations of all parts, in order.
pub(crate) fn join_all(alloc: Global, parts: Items<ResolvedFile>) -> Result<ResolvedFile, NoMemory>
    ensures { IfOk result (λ found. resolved_view found ≡ together (map resolved_view parts)) }
{
    let mut whole = ResolvedFile {
        commons: Items::new(alloc),
        entity_types: Items::new(alloc),
        actions: Items::new(alloc),
    };
    for part in parts.into_vec() {
        whole = join(whole, part)?;
    }
    Ok(whole)
}
