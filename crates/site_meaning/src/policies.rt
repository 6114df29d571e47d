//! The policies of a store.
ghost use Rattle.std.specs.Prelude.{◌≡◌, IfOk, map};
ghost use Rattle.entity_hierarchy.specs.authoriser.Views.{named};
ghost use Rattle.entity_hierarchy.specs.authoriser.Laws.{AreIdsAscending};
ghost use Rattle.stamped_store.specs.Store.{updates, abstract_store, abstract_updates};
ghost use Rattle.site_meaning.specs.TextsRead.{policies_read};

use entity_hierarchy::{Entity, Policy};
use plain::NoMemory;
use stamped_store::StampedStore;
use std::alloc::Global;

/// Returns the parsed policies of a store, in the order of their names.
fn read_policies<'s>(
    alloc: Global,
    store: &'s StampedStore<Policy, Entity>,
) -> Result<Vec<(&'s str, &'s Policy)>, NoMemory>
    ensures read { IfOk result (λ ps. named ps.items ≡ policies_read store.now.policies) }
    ensures in_order { updates (abstract_store store.now) ≡ abstract_updates store.now }
{
    let mut found = Vec::new(alloc);
    for (id, entry) in store.policies() {
        if let Some(text) = &entry.body {
            found.push((id.as_str(), &text.read))?;
        }
    }
    Ok(found)
}

/// Returns the parsed policies of a store with their ids, in ascending order of ids.
///
/// Takes one pass over all names of policies, including deleted ones.
///
/// # Errors
///
/// - `NoMemory`: an allocation failed.
pub fn policies_in<'s>(
    alloc: Global,
    store: &'s StampedStore<Policy, Entity>,
) -> Result<Vec<(&'s str, &'s Policy)>, NoMemory>
    ensures read { IfOk result (λ ps. named ps.items ≡ policies_read store.now.policies) }
    ensures ascending { IfOk result (λ ps. AreIdsAscending (map (λ p. p.id) (named ps.items))) }
{
    read_policies(alloc, store)
}
