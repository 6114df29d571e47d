//! The check that no action is its own ancestor.
ghost use Rattle.std.specs.Prelude.{◌≡◌, ◌≢◌, ◌↔◌, IfOk, IsTrue, MatchResult};
ghost use Rattle.ancestor_search.specs.contracts.searched.SearchedAncestry.TheImpl as searched;
ghost use Rattle.schema_types.specs.declared.fault.SchemaFault.TheVariants as SchemaFault;
ghost use Rattle.schema.specs.Cycles.{HasCycle};

use ancestor_search::{Ancestry, Searched};
use plain::NoMemory;
use schema_types::SchemaFault;

/// Returns whether some entity of a hierarchy is its own ancestor.
fn has_cycle(edges: &Searched) -> Result<bool, NoMemory>
    ensures { IfOk result (λ yes. IsTrue yes ↔ HasCycle (searched.parents-value.it edges.now)) }
{
    let found = edges.cyclic()?;
    match found.first() {
        Some(_) => Ok(true),
        None => Ok(false),
    }
}

/// Rejects a hierarchy in which some entity is its own ancestor.
///
/// # Errors
///
/// - `ActionCycle` (24): some entity is its own ancestor.
/// - `NoMemory` (1): an allocation failed; possible at any point.
pub fn demand_no_cycle(edges: &Searched) -> Result<(), SchemaFault>
    ensures { MatchResult result (λ u. HasCycle (searched.parents-value.it edges.now) → ⊥)
        (λ f. f ≢ SchemaFault.NoMemory
        → (f ≡ SchemaFault.ActionCycle) × HasCycle (searched.parents-value.it edges.now)) }
{
    if has_cycle(edges)? {
        Err(SchemaFault::ActionCycle)
    } else {
        Ok(())
    }
}
