//! Creation of the places of environments ([`EnvironmentKey`]), and of environments from a map.
ghost use Rattle.std.specs.Prelude.{◌≡◌, IfOk, map};
ghost use Rattle.std.specs.BTreeMap.{IsOrdered};
ghost use Rattle.schema.specs.Places.{place_cmp, place_of, environment_of};

use crate::parts::{Environment, EnvironmentKey};
use plain::{Items, NoMemory, Shared};
use schema_types::CedarType;
use std::alloc::Global;
use std::collections::BTreeMap;
use values::{EntityUid, TypeName};

/// Creates the place of an action, a principal type and a resource type. The only error is `NoMemory`.
pub fn make_place(
    action: &EntityUid,
    principal: &TypeName,
    resource: &TypeName,
) -> Result<EnvironmentKey, NoMemory>
    ensures { IfOk result (λ p. p ≡ place_of action.now principal.now resource.now) }
{
    let action = action.copy()?;
    let principal = principal.copy()?;
    let resource = resource.copy()?;
    Ok(EnvironmentKey {
        action,
        principal,
        resource,
    })
}

/// Returns the entries of a map as environments, ascending by place, without duplicates. The only error is `NoMemory`.
pub fn environments_in_order(
    alloc: Global,
    places: BTreeMap<EnvironmentKey, Shared<CedarType>>,
) -> Result<Items<Environment>, NoMemory>
    ensures items { IfOk result (λ es. es ≡ map environment_of places.entries) }
    ensures ordered { IsOrdered place_cmp places }
{
    let mut environments = Items::new(alloc);
    for (place, context) in places {
        environments.push(Environment { place, context })?;
    }
    Ok(environments)
}
