//! Theorems over relations between bytes and what they describe. The functions are no-ops.
ghost use Rattle.site_theorems.specs.Laws.{StepsAreAsStated};
ghost use Rattle.site_theorems.specs.Runs.{RunsLeaveApplied, EqualUpdatesLeaveEqualStores, RunsHavePermittedErrors};
ghost use Rattle.site_theorems.specs.SiteStores.{SitesHoldApplied};
ghost use Rattle.site_theorems.specs.Promises.{AllWorldsKeepPromises};
ghost use Rattle.site_theorems.specs.MainTheorem.{SitesAreAsStated};

use site::{
    entities_are_read_as_stated, entity_texts_are_read_as_stated, messages_are_read_as_stated,
    names_read_back, requests_are_read_as_stated, runs_are_sound, runs_leave_what_they_took,
    summaries_are_read_as_stated, updates_are_read_as_stated, worlds_keep_promises,
};

/// Proves that `Step`, which the contracts of a site cite, and `IsStep`, which rests on relations between bytes and
/// what they describe, relate the same inputs, replies and stores. No-op.
///
/// So each answer is over the entities and the request that JSON describes, and each update applied from a message is
/// one that the message describes. Each error of an entity, a request, a message or a summary is the first that its
/// bytes have.
pub fn steps_are_as_stated()
    ensures { StepsAreAsStated }
{
    names_read_back();
    entities_are_read_as_stated();
    requests_are_read_as_stated();
    entity_texts_are_read_as_stated();
    summaries_are_read_as_stated();
    messages_are_read_as_stated();
}

/// Proves, over relations between bytes and what they describe, what each run of each site leaves, from any store.
/// No-op.
///
/// - `leave`: the run applied exactly one list of updates. The store at the end is the join of the updates that the
///   site had and the applied ones: at each name the greatest entry.
/// - `equal`: sites of one schema that had and applied equal sets of updates hold equal stores, whatever the order, the
///   repeats and the grouping of the updates.
/// - `permitted`: under a schema that some bytes describe, each error of a policy in an answer is `EntityDoesNotExist`
///   or `ArithBoundsError`: none is of a type, of an attribute or of an extension function.
pub fn runs_leave_what_was_applied()
    ensures leave { RunsLeaveApplied }
    ensures equal { EqualUpdatesLeaveEqualStores }
    ensures permitted { RunsHavePermittedErrors }
{
    steps_are_as_stated();
    names_read_back();
    entities_are_read_as_stated();
    updates_are_read_as_stated();
    runs_leave_what_they_took();
    runs_are_sound();
}

/// Proves that in each system of sites, at every moment, each site's store is the join of the updates that the site
/// applied. The events with their replies determine exactly one list of these updates. No-op.
pub fn sites_hold_what_they_applied()
    ensures { SitesHoldApplied }
{
    steps_are_as_stated();
    names_read_back();
    entities_are_read_as_stated();
    updates_are_read_as_stated();
    runs_leave_what_they_took();
}

/// Proves the promises of [`worlds_keep_promises`] over relations between bytes and what they describe. No-op.
///
/// They hold in each system of sites with distinct names under a schema that some bytes describe, whatever was
/// delivered, in whatever order and however often.
pub fn worlds_keep_promises_as_stated()
    ensures { AllWorldsKeepPromises }
{
    worlds_keep_promises();
    steps_are_as_stated();
    names_read_back();
    entities_are_read_as_stated();
    updates_are_read_as_stated();
}

/// Proves all promises about sites at once, over relations between bytes and what they describe: those of
/// [`runs_leave_what_was_applied`], [`sites_hold_what_they_applied`] and [`worlds_keep_promises_as_stated`]. No-op.
pub fn sites_are_as_stated()
    ensures { SitesAreAsStated }
{
    runs_leave_what_was_applied();
    sites_hold_what_they_applied();
    worlds_keep_promises_as_stated();
}
