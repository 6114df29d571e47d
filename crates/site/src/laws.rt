//! Theorems about systems of sites. The functions are no-ops.
ghost use Rattle.std.specs.Prelude.{◌<◌, ℕ};
ghost use Rattle.site.specs.Sites.{AreSites, first_sites};
ghost use Rattle.site.specs.Promises.{AllWorldsKeepPromises};
ghost use Rattle.site.specs.Worlds.{RepliesDetermineWorlds};

use crate::leaving::runs_leave_what_they_took;
use crate::step_laws::inputs_have_one_outcome;
use entities::json_texts_are_utf8;
use entity_uids::names_read_back;
use site_store::{
    Entity, Policy, deltas_are_joined, site_names_are_recognized, stamps_are_issued,
    stated_schemas_are_well_formed, updates_have_one_store,
};
use sync_messages::{
    SchemaTexts, messages_read_back, summaries_read_back, valid_messages_are_read,
};

/// Proves what holds in each system of sites with distinct names under a schema that some bytes describe. No-op.
///
/// Whatever was delivered, in whatever order and however often:
///
/// - Each entry in a store or a message was issued by a local command at the site that its stamp names.
/// - Equal stamps mean equal updates.
/// - Let a delta be made from a store against an earlier summary of a site. If this site applies all of the delta, it
///   then has the join of its own store and the store that the delta was made from.
/// - A state has the updates of the store that it was made from, and a delta has those updates whose names its summary
///   lacks or has with a smaller stamp. A message or summary that was made is rejected only for `NoMemory`.
pub fn worlds_keep_promises()
    ensures { AllWorldsKeepPromises }
{
    stated_schemas_are_well_formed();
    updates_have_one_store();
    stamps_are_issued();
    deltas_are_joined();
    json_texts_are_utf8();
    names_read_back();
    entities::canonical_texts_are_read();
    sync_messages::canonical_texts_are_read();
    summaries_read_back();
    messages_read_back();
    valid_messages_are_read::<Policy, Entity, SchemaTexts<'static>>();
    runs_leave_what_they_took();
    inputs_have_one_outcome();
}

/// Proves that events and replies together determine a system: the store of each site, and each message and summary
/// that was made. No-op.
pub fn replies_determine_worlds()
    ensures { RepliesDetermineWorlds }
{
    runs_leave_what_they_took();
}

/// Proves that the five digits of 1, 2 and so on are distinct site names, for up to 99,999 sites. No-op.
///
/// Messages of version 1 can name only the first 65,535 of these.
pub fn first_sites_are_distinct()
    ensures { (count : ℕ) → count < 100000 → AreSites (first_sites count) }
{
    site_names_are_recognized();
}
