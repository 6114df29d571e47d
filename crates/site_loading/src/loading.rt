//! The state of a site after a load of files.
ghost use Rattle.std.specs.Prelude.{◌≡◌, option_map, IfOk, IfErr, OnOk};
ghost use Rattle.site.specs.SiteViews.{schema_of, store_in, IsSameSite};
ghost use Rattle.plain.specs.AllocationErrors.{OrNoMemory};
ghost use Rattle.schema_decisions.specs.answer_lines.Refusals.{no_memory};
ghost use Rattle.site_loading.specs.Loads.{IsLoadedState, IsRefused, LoadsIfNamed, RefusesIfNamed};
ghost use Rattle.site_loading.specs.Loads.{LoadsPolicies, RefusesPolicies, LoadsEntities, RefusesEntities};

use crate::entity_file::load_entities;
use crate::policies::load_policies;
use schema_decisions::Refusal;
use site::Site;
use std::alloc::Global;

/// Puts the policies of a file, if a file is given.
fn load_policies_if_named(
    alloc: Global,
    site: &mut Site,
    bytes: Option<&[u8]>,
) -> Result<(), Refusal>
    ensures loaded { OnOk result (LoadsIfNamed
        (LoadsPolicies (schema_of site.old) site.old.name) (store_in site.old) (option_map (λ b. b.now) bytes.entry)
        (store_in site.new)) }
    ensures refused { IfErr result (OrNoMemory no_memory (RefusesIfNamed
        (RefusesPolicies (schema_of site.old) site.old.name) (store_in site.old)
        (option_map (λ b. b.now) bytes.entry))) }
    ensures same { IsSameSite site.old site.new }
{
    match bytes {
        Some(bytes) => load_policies(alloc, site, bytes),
        None => Ok(()),
    }
}

/// Puts the entities of an array, if an array is given.
fn load_entities_if_named(
    alloc: Global,
    site: &mut Site,
    bytes: Option<&[u8]>,
) -> Result<(), Refusal>
    ensures loaded { OnOk result (LoadsIfNamed
        (LoadsEntities (schema_of site.old) site.old.name) (store_in site.old) (option_map (λ b. b.now) bytes.entry)
        (store_in site.new)) }
    ensures refused { IfErr result (OrNoMemory no_memory (RefusesIfNamed
        (RefusesEntities (schema_of site.old) site.old.name) (store_in site.old)
        (option_map (λ b. b.now) bytes.entry))) }
    ensures same { IsSameSite site.old site.new }
{
    match bytes {
        Some(bytes) => load_entities(alloc, site, bytes),
        None => Ok(()),
    }
}

/// Puts the policies of a file and the entities of an array, if they are given, into a site, and returns the site's
/// state as a message.
///
/// Each policy is put under its name in the file with its own text from the file; then each entity is put. The result
/// is that of [`Site::state`] after these puts. Sites of the schema parse this message as the store's updates.
///
/// # Errors
///
/// The first of these, in this order; no state is then returned:
///
/// - 10 to 19, at a byte offset: the file of policies is rejected.
/// - 18, 40 to 46 or 62, at the policy's index in the file: the first rejected put of a policy (18: the policy's own
///   text has over 262,144 bytes; 40 to 46: the policy does not pass validation; 62: no stamp is left).
/// - 30 to 38, at the entity's index in the array: the array of entities is rejected; 30 without a place if the bytes
///   are not an array.
/// - 61 or 62, at the entity's index: the first rejected put of an entity (61: a cycle; 62: no stamp is left).
/// - `NoMemory` (1): an allocation failed; possible at any point.
pub fn loaded_state(
    alloc: Global,
    site: Site,
    policies: Option<&[u8]>,
    entities: Option<&[u8]>,
) -> Result<Vec<u8>, Refusal>
    ensures loaded { IfOk result (λ b. IsLoadedState (schema_of site) site.name (store_in site)
        (option_map (λ p. p.now) policies.entry) (option_map (λ e. e.now) entities.entry) b.items) }
    ensures refused { IfErr result (OrNoMemory no_memory (IsRefused (schema_of site) site.name (store_in site)
        (option_map (λ p. p.now) policies.entry) (option_map (λ e. e.now) entities.entry))) }
{
    let mut site = site;
    load_policies_if_named(alloc, &mut site, policies)?;
    load_entities_if_named(alloc, &mut site, entities)?;
    Ok(site.state()?)
}
