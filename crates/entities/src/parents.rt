//! The check that an entity may have its parents.
ghost use Rattle.json_words.specs.ReadsAs.{ReadsAs};
ghost use Rattle.schema.specs.Views.{schema_view};
ghost use Rattle.entities.specs.declared.fault.EntityFault.TheVariants as EntityFault;
ghost use Rattle.entities.specs.Entities.{parent_fits, parents_fit, parents_in};

use crate::fault::EntityFault;
use entity_data::UidSet;
use plain::Items;
use schema::Schema;
use values::EntityUid;

/// Checks that the entity `uid` may have this parent: that `parent` is another entity (else `SelfParent`), and that one
/// or more steps by `memberOfTypes` lead from the type of `uid` to the type of `parent` (else `BadParent`).
#[tactic(auto, unfolding(crate::specs::Entities::parent_fits))]
fn demand_parent(schema: &Schema, uid: &EntityUid, parent: &EntityUid) -> Result<(), EntityFault>
    ensures { ReadsAs EntityFault.NoMemory (λ u. u) result (parent_fits (schema_view schema.now) uid.now parent.now) }
{
    if parent == uid {
        return Err(EntityFault::SelfParent);
    }
    if !schema.may_have_parent(&uid.type_name, &parent.type_name) {
        return Err(EntityFault::BadParent);
    }
    Ok(())
}

/// Checks that an entity may have each of these parents, in order. Returns the first error.
fn demand_parents(
    schema: &Schema,
    uid: &EntityUid,
    parents: &[EntityUid],
) -> Result<(), EntityFault>
    ensures { ReadsAs EntityFault.NoMemory (λ u. u) result (parents_fit (schema_view schema.now) uid.now parents.now) }
{
    for parent in parents {
        demand_parent(schema, uid, parent)?;
    }
    Ok(())
}

/// Returns the set of these parents if the entity may have each of them; else the first error.
#[tactic(auto, unfolding(crate::specs::Entities::parents_in))]
pub(crate) fn checked_parents(
    schema: &Schema,
    uid: &EntityUid,
    parents: Items<EntityUid>,
) -> Result<UidSet, EntityFault>
    ensures { ReadsAs EntityFault.NoMemory (λ us. us) result (parents_in (schema_view schema.now) uid.now parents) }
{
    demand_parents(schema, uid, parents.as_slice())?;
    Ok(UidSet::new(parents.into_vec())?)
}
