//! The uids of entities and of actions.
ghost use Rattle.std.specs.Prelude.{◌≡◌, ◌↔◌, ◌⊎◌, Contains, IfOk};
ghost use Rattle.values.specs.declared.entity_uid.EntityUid.{EntityUid as PlainUid};
ghost use Rattle.evaluator.specs.ancestor_search.Hierarchy.{IsAscending, referenced};
ghost use Rattle.entity_data.specs.Entities.{uids_with};

use crate::actions::ActionSource;
use evaluator::ascending_lists_are_one;
use plain::NoMemory;
use values::{EntityUid, entity_uids_are_ordered};

/// Returns the uids of both lists in one list, ascending and without duplicates.
fn together<'a>(
    some: Vec<&'a EntityUid>,
    others: &'a [EntityUid],
) -> Result<Vec<&'a EntityUid>, NoMemory>
    ensures ascending { IfOk result (λ all. IsAscending (referenced all.items)) }
    ensures members { IfOk result (λ all. (u : PlainUid)
        → Contains (referenced all.items) u ↔ Contains (referenced some.entry.items) u ⊎ Contains others.now u) }
{
    entity_uids_are_ordered();
    let mut all = some;
    for uid in others {
        all.push(uid)?;
    }
    all.sort()?;
    all.dedup();
    Ok(all)
}

/// Returns the uids of entities together with those of actions, in ascending order.
pub(crate) fn with_actions<'a, A: ActionSource>(
    kept: Vec<&'a EntityUid>,
    actions: &'a A,
) -> Result<Vec<&'a EntityUid>, NoMemory>
    ensures all { IfOk result
        (λ all. referenced all.items ≡ uids_with (A.uids actions.now) (referenced kept.entry.items)) }
    ensures ascending { IfOk result (λ all. IsAscending (referenced all.items)) }
{
    ascending_lists_are_one();
    together(kept, actions.actions())
}
