//! The initial site of a run: empty, or with the updates of a state.
ghost use Rattle.std.specs.Prelude.{◌≡◌, IfOk, IfErr, Some, option_map};
ghost use Rattle.program_drills.specs.answer_lines.Refusals.{no_memory};
ghost use Rattle.site_loading.specs.site.SiteViews.{schema_of};
ghost use Rattle.program.specs.InitialSites.{IsInitialSite, IsInitialSiteRefused, IsStateRefused, site_refusal};
ghost use Rattle.program.specs.inner.InitialUpdates.{TakesState};

use plain::{NoMemory, Shared};
use program_drills::{Refusal, Site, SiteFault, Taken, fault_place};
use program_lines::SiteName;
use site_loading::parse_schema;
use std::alloc::Global;

/// Returns an error of a site as the program reports it.
fn site_refusal(fault: SiteFault) -> Refusal
    ensures { result ≡ site_refusal fault }
{
    Refusal {
        code: fault.code(),
        place: fault_place(fault),
        within: fault.within(),
    }
}

/// Returns the site after it applied the updates of a message.
fn with_state(mut site: Site, bytes: &[u8]) -> Result<Site, Refusal>
    ensures taken { IfOk result (TakesState site bytes.now) }
    ensures refused { IfErr result
        (λ r. (r ≡ no_memory → ⊥) → IsStateRefused (schema_of site) (Some bytes.now) r) }
{
    match site.take_bytes(bytes) {
        Ok(Taken::All(_)) => Ok(site),
        Ok(Taken::Short(_)) => Err(Refusal::from(NoMemory)),
        Err(fault) => Err(site_refusal(fault)),
    }
}

/// Returns the site of this name, empty or with the updates of a message (a state or a delta). The schema is checked
/// first.
pub(crate) fn initial_site(
    alloc: Global,
    schema: &[u8],
    name: SiteName,
    state: Option<&[u8]>,
) -> Result<Site, Refusal>
    ensures begun { IfOk result (IsInitialSite schema.now name (option_map (λ s. s.now) state.entry)) }
    ensures refused { IfErr result (λ r. (r ≡ no_memory → ⊥)
        → IsInitialSiteRefused schema.now (option_map (λ s. s.now) state.entry) r) }
{
    let schema = match parse_schema(alloc, schema) {
        Ok(schema) => schema,
        Err(refusal) => return Err(refusal),
    };
    let schema = Shared::new(alloc, schema)?;
    let mut site = Site::new(alloc, schema, name.as_str());
    match state {
        Some(bytes) => with_state(site, bytes),
        None => {
            site.rebuild();
            Ok(site)
        }
    }
}
