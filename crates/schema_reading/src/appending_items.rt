//! Appending to parsed items. The function is generic, so that the drop of the items after an error is one step of a
//! proof.
ghost use Rattle.std.specs.Prelude.{◌≡◌, ◌≢◌, ◌++◌, ◌∷◌, [], IfOk, IfErr, Ok, Err};

use plain::Items;
use schema_types::SchemaFault;

/// Returns `items` with the item in `read` appended, or the error in `read`, or `NoMemory` (1) for a failed allocation.
pub(crate) fn followed_by<T: Drop>(
    items: Items<T>,
    read: Result<T, SchemaFault>,
) -> Result<Items<T>, SchemaFault>
    ensures read { IfOk result (λ more. (item : T) × (read ≡ Ok item) × (more ≡ items ++ item ∷ [])) }
    ensures refused { IfErr result (λ fault. fault ≢ SchemaFault.NoMemory → read ≡ Err fault) }
{
    let item = read?;
    let mut more = items;
    more.push(item)?;
    Ok(more)
}
