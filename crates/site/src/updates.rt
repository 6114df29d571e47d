//! The application of updates that another site sent.
ghost use Rattle.std.specs.Prelude.{◌≡◌, ◌++◌, ◌∷◌, [], IsTrue, true, false, MatchResult, string_bytes};
ghost use Rattle.std.specs.List.{AllByRecursion};
ghost use Rattle.site_store.specs.stamped_store.EntryOrder.{plain_entry};
ghost use Rattle.site_store.specs.stamped_store.Reading.{IsEntryRead};
ghost use Rattle.site_store.specs.stamped_store.Store.{store_of, updates, policy_name, entity_name};
ghost use Rattle.sync_messages.specs.sync_format.Summaries.{IsStamped};
ghost use Rattle.sync_messages.specs.sync_format.Updates.{plain_update, plain_updates};
ghost use Rattle.site.specs.Admitted.{IsPolicyUnder, IsEntityUnder, IsValidUnder};
ghost use Rattle.site.specs.SiteViews.{schema_of, store_in, IsSameSite};
ghost use Rattle.site.specs.Steps.{TakesUpdates};

use crate::outcome::Taken;
use crate::ranges::ranges_stay;
use crate::site::Site;
use crate::under_schema::readings_stay;
use site_store::{Entity, Entry, Policy, updates_have_one_store};
use sync_messages::Update;
use values::EntityUid;

/// Returns whether a join succeeded.
fn is_taken<T: Drop>(taken: Result<(), T>) -> bool
    ensures { MatchResult taken (λ _. result ≡ true) (λ _. result ≡ false) }
{
    match taken {
        Ok(()) => true,
        Err(_) => false,
    }
}

impl Site {
    /// Joins one update of a policy to the store. Returns false, with the store unchanged, if the allocation for the
    /// entry fails.
    fn take_policy(&mut self, id: String, entry: Entry<Policy>) -> bool
        requires in_range { IsStamped (policy_name (string_bytes id), entry.stamp) }
        requires read { IsEntryRead (IsPolicyUnder (schema_of self.old) (string_bytes id)) entry }
        ensures taken { IsTrue result → store_in self.new
            ≡ store_of (updates (store_in self.old) ++ (policy_name (string_bytes id), plain_entry entry) ∷ []) }
        ensures refused { result ≡ false → store_in self.new ≡ store_in self.old }
        ensures same { IsSameSite self.old self.new }
    {
        readings_stay();
        ranges_stay();
        let taken = self.store.take_policy(id, entry);
        is_taken(taken)
    }

    /// Joins one update of an entity to the store. Returns false, with the store unchanged, if the allocation for the
    /// entry fails.
    fn take_entity(&mut self, uid: EntityUid, entry: Entry<Entity>) -> bool
        requires in_range { IsStamped (entity_name uid, entry.stamp) }
        requires read { IsEntryRead (IsEntityUnder (schema_of self.old) uid) entry }
        ensures taken { IsTrue result → store_in self.new
            ≡ store_of (updates (store_in self.old) ++ (entity_name uid, plain_entry entry) ∷ []) }
        ensures refused { result ≡ false → store_in self.new ≡ store_in self.old }
        ensures same { IsSameSite self.old self.new }
    {
        readings_stay();
        ranges_stay();
        let taken = self.store.take_entity(uid, entry);
        is_taken(taken)
    }

    /// Joins one update to the store. Returns false, with the store unchanged, if the allocation for its entry fails.
    fn take_one(&mut self, update: Update<Policy, Entity>) -> bool
        requires { IsValidUnder (schema_of self.old) update }
        ensures taken { IsTrue result → store_in self.new
            ≡ store_of (updates (store_in self.old) ++ plain_update update ∷ []) }
        ensures refused { result ≡ false → store_in self.new ≡ store_in self.old }
        ensures same { IsSameSite self.old self.new }
    {
        match update {
            Update::Policy { id, entry } => self.take_policy(id.into_string(), entry),
            Update::Entity { uid, entry } => self.take_entity(uid, entry),
        }
    }

    /// Applies updates as [`Self::take`] does, but absent caches stay absent. The caches that are present are updated
    /// after each update; the ancestor cache is dropped once its updates have cost much more than a rebuild.
    pub fn take_all(&mut self, updates: Vec<Update<Policy, Entity>>) -> Taken
        requires { AllByRecursion (IsValidUnder (schema_of self.old)) updates.items }
        ensures takes { TakesUpdates (store_in self.old) (plain_updates updates.items) result (store_in self.new) }
        ensures same { IsSameSite self.old self.new }
    {
        updates_have_one_store();
        let mut taken = 0;
        for update in updates {
            if !self.take_one(update) {
                return Taken::Short(taken);
            }
            taken += 1;
        }
        Taken::All(taken)
    }

    /// Applies updates of another site in their order: each is joined at its name, where the greater entry wins.
    ///
    /// All applied updates are counted, also those that lose. If the allocation for an update fails, the result is
    /// `Short(k)`, and exactly the first `k` updates are applied. An update that makes an entity cyclic is applied too.
    /// After the updates, absent caches are rebuilt as [`Site::rebuild`] does.
    ///
    /// Each update must be valid under the site's schema; `sync_messages::read_message` returns such updates.
    pub fn take(&mut self, updates: Vec<Update<Policy, Entity>>) -> Taken
        requires { AllByRecursion (IsValidUnder (schema_of self.old)) updates.items }
        ensures takes { TakesUpdates (store_in self.old) (plain_updates updates.items) result (store_in self.new) }
        ensures same { IsSameSite self.old self.new }
    {
        let taken = self.take_all(updates);
        self.store.rebuild();
        taken
    }
}
