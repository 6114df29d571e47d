//! A system of sites, run from a list of events.
ghost use Rattle.std.specs.Prelude.{◌≤◌, IfOk, List, []};
ghost use Rattle.site_store.specs.schema.Schemas.{StatedSchema};
ghost use Rattle.site_store.specs.schema.Views.{schema_view};
ghost use Rattle.site_store.specs.stamped_store.SiteNames.{five_digits};
ghost use Rattle.site_store.specs.stamped_store.Store.{store_of};
ghost use Rattle.site.specs.Sites.{SiteName as Named, first_sites, start};
ghost use Rattle.site.specs.Promises.{WorldKeepsPromises};
ghost use Rattle.site.specs.SystemViews.{IsSiteOf, AreSitesOf, IsRunTo};

use crate::event::{Event, EventReply};
use crate::laws::{first_sites_are_distinct, worlds_keep_promises};
use crate::playing::play;
use crate::site::Site;
use plain::{Items, NoMemory, Shared};
use site_store::{Schema, SiteName};
use std::alloc::Global;

/// The state of a system: the sites, the messages and summaries that were made, and the replies to the events.
#[derive(Drop)]
pub struct World {
    /// The sites, in the order of their numbers.
    pub sites: Vec<Site>,
    /// The messages that were made so far, as bytes, numbered from 0.
    pub messages: Vec<Items<u8>>,
    /// The summaries that were made so far, as bytes, numbered from 0.
    pub summaries: Vec<Items<u8>>,
    /// The reply to each event, in the order of the events.
    pub replies: Vec<EventReply>,
}

/// Runs events at these sites. The contract covers only empty sites of one schema.
fn run_events(alloc: Global, mut sites: Vec<Site>, events: &[Event]) -> Result<World, NoMemory>
    ensures { IfOk result (λ w. (schema : StatedSchema) (names : List Named)
        → AreSitesOf schema names (start names).stores sites.items
        → IsRunTo schema names events.now w.replies.items w.sites.items w.messages.items w.summaries.items) }
{
    let mut messages = Vec::new(alloc);
    let mut summaries = Vec::new(alloc);
    let replies = play(alloc, &mut sites, &mut messages, &mut summaries, events)?;
    Ok(World {
        sites,
        messages,
        summaries,
        replies,
    })
}

/// Creates an empty site whose name is the five digits of `number`.
fn new_site(alloc: Global, schema: &Shared<Schema>, number: u16) -> Result<Site, NoMemory>
    ensures { IfOk result (IsSiteOf (schema_view schema.now) (five_digits number) (store_of [])) }
{
    let name = SiteName::from_number(number);
    Ok(Site::new(alloc, schema.share()?, name.as_str()))
}

/// Creates `count` empty sites of a schema, named `00001`, `00002` and so on.
fn new_sites(alloc: Global, schema: &Shared<Schema>, count: u16) -> Result<Vec<Site>, NoMemory>
    ensures { IfOk result (λ sites. AreSitesOf (schema_view schema.now) (first_sites count)
        (start (first_sites count)).stores sites.items) }
{
    let mut sites = Vec::with_capacity(alloc, count as usize)?;
    for before in 0..count {
        sites.push(new_site(alloc, schema, before + 1)?)?;
    }
    Ok(sites)
}

/// Runs events at `count` empty sites of a schema, named `00001`, `00002` and so on.
///
/// `count` must be from 1 to 64. The result is the state of a system to which the theorems apply
/// ([`worlds_keep_promises`]).
///
/// # Errors
///
/// - `NoMemory`: an allocation failed for the sites, or to store a message, a summary or a reply. Any other failed
///   allocation is reported in the reply to its event, or only makes a cache absent or unused.
pub fn simulate(
    alloc: Global,
    schema: &Shared<Schema>,
    count: u16,
    events: &[Event],
) -> Result<World, NoMemory>
    requires { (1 ≤ count) × (count ≤ 64) }
    ensures played { IfOk result (λ w. IsRunTo (schema_view schema.now) (first_sites count) events.now
        w.replies.items w.sites.items w.messages.items w.summaries.items) }
    ensures promised { IfOk result (λ w. WorldKeepsPromises (schema_view schema.now) (first_sites count) events.now
        w.replies.items) }
{
    first_sites_are_distinct();
    worlds_keep_promises();
    schema.is_stated();
    run_events(alloc, new_sites(alloc, schema, count)?, events)
}
