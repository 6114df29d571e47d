//! The commands of a site: puts and deletions of policies and entities.
ghost use Rattle.std.specs.Prelude.{◌≡◌, ◌≤◌, IfOk, is_some, true, false, option_map, option_and_then, Some, None, Ok};
ghost use Rattle.std.specs.Prelude.{Err, MatchResult, string_bytes};
ghost use Rattle.std.specs.Option.{option_copied};
ghost use Rattle.std.specs.FinMap.{get};
ghost use Rattle.serde_json.specs.View.{view};
ghost use Rattle.site_store.specs.entity_data.declared.entity.Entity.{Entity};
ghost use Rattle.entities.specs.Canonical.{canonical_text};
ghost use Rattle.site_store.specs.stamped_store.Contents.{text_under};
ghost use Rattle.site_store.specs.stamped_store.EntryOrder.{body_bytes, plain_entry};
ghost use Rattle.site_store.specs.stamped_store.Greatest.{greatest_count};
ghost use Rattle.site_store.specs.stamped_store.Reading.{IsBodyRead};
ghost use Rattle.site_store.specs.stamped_store.Store.{abstract_store, policy_name, entity_name, issued};
ghost use Rattle.site_store.specs.stamped_store.Store.{KeepsOtherNames};
ghost use Rattle.site_meaning.specs.StoreMeaning.{MakesCycle, MakesNoCycle};
ghost use Rattle.sync_messages.specs.sync_format.Summaries.{IsName};
ghost use Rattle.site.specs.Admitted.{IsPolicyUnder, IsEntityUnder, entity_stated};
ghost use Rattle.site.specs.Readings.{parsed};
ghost use Rattle.site.specs.SiteViews.{schema_of, store_in, IsSameSite};
ghost use Rattle.site.specs.Steps.{PutsPolicy, PutsEntity, Deletes};
ghost use Rattle.site.specs.inner.Recording.{RecordsOr, PutsUnless, IsNext, put_result};

use crate::checking::{CheckedPolicy, checked_policy, stated_entity};
use crate::fault::SiteFault;
use crate::outcome::Put;
use crate::ranges::ranges_stay;
use crate::site::Site;
use crate::under_schema::readings_stay;
use plain::NoMemory;
use serde_json::Value;
use site_store::{
    COUNT_MAX, Entity, Entry, Policy, ReadText, SiteName, Stamp, StampedStore, stamps_are_issued,
};
use sync_messages::SchemaTexts;
use values::EntityUid;

/// Returns the result of putting a policy: the stamp, and whether the policy is impossible; or the error in `stamped`.
fn put_from_stamp(stamped: Result<Stamp, SiteFault>, impossible: bool) -> Result<Put, SiteFault>
    ensures { result ≡ put_result impossible stamped }
{
    match stamped {
        Ok(stamp) => Ok(Put { stamp, impossible }),
        Err(fault) => Err(fault),
    }
}

/// Returns `stamp` if the entry was stored, else `NoMemory`.
fn stamped<T: Drop>(taken: Result<(), T>, stamp: &Stamp) -> Result<Stamp, SiteFault>
    ensures { MatchResult taken (λ _. result ≡ Ok stamp.now) (λ _. result ≡ Err SiteFault.NoMemory) }
{
    match taken {
        Ok(()) => Ok(*stamp),
        Err(_) => Err(SiteFault::NoMemory),
    }
}

/// Returns whether `entry` is present and has a text.
fn has_text<P>(entry: Option<&Entry<P>>) -> bool
    ensures { result ≡ is_some (option_and_then (λ e. e.body) (option_map plain_entry (option_copied entry.entry))) }
{
    match entry {
        Some(entry) => entry.body.is_some(),
        None => false,
    }
}

/// Returns the error `fault`, and drops what would have been stored.
fn refused<T: Drop>(_dropped: T, fault: SiteFault) -> Result<Stamp, SiteFault>
    ensures { result ≡ Err fault }
{
    Err(fault)
}

/// Returns the stamp of the next local command at a site; `None` if no stamp is left.
fn next_stamp(store: &StampedStore<Policy, Entity>, name: SiteName) -> Option<Stamp>
    requires { greatest_count (abstract_store store.now) ≤ COUNT_MAX }
    ensures { IsNext name (abstract_store store.now) result }
{
    if store.greatest_count() >= COUNT_MAX {
        return None;
    }
    Some(store.issue(name))
}

impl Site {
    /// Stores the body of a policy, or a tombstone if `body` is `None`, with the next stamp. After an error
    /// (`ClockFull` or `NoMemory`) the store is unchanged.
    fn record_policy(
        &mut self,
        id: String,
        body: Option<ReadText<Policy>>,
    ) -> Result<Stamp, SiteFault>
        requires named { IsName (policy_name (string_bytes id)) }
        requires read { IsBodyRead (IsPolicyUnder (schema_of self.old) (string_bytes id)) body }
        ensures records { RecordsOr self.old.name (store_in self.old) (policy_name (string_bytes id))
            (body_bytes body) result (store_in self.new) }
        ensures others { KeepsOtherNames (policy_name (string_bytes id)) (store_in self.old) (store_in self.new) }
        ensures same { IsSameSite self.old self.new }
    {
        readings_stay();
        ranges_stay();
        match next_stamp(self.store.store(), self.name) {
            Some(stamp) => {
                let entry = Entry { stamp, body };
                let taken = self.store.record_policy(id, entry);
                stamped(taken, &stamp)
            }
            None => refused((id, body), SiteFault::ClockFull),
        }
    }

    /// Stores the body of an entity, or a tombstone if `body` is `None`, with the next stamp. After an error
    /// (`ClockFull` or `NoMemory`) the store is unchanged.
    fn record_entity(
        &mut self,
        uid: EntityUid,
        body: Option<ReadText<Entity>>,
    ) -> Result<Stamp, SiteFault>
        requires named { IsName (entity_name uid) }
        requires read { IsBodyRead (IsEntityUnder (schema_of self.old) uid) body }
        ensures records { RecordsOr self.old.name (store_in self.old) (entity_name uid) (body_bytes body) result
            (store_in self.new) }
        ensures others { KeepsOtherNames (entity_name uid) (store_in self.old) (store_in self.new) }
        ensures same { IsSameSite self.old self.new }
    {
        readings_stay();
        ranges_stay();
        match next_stamp(self.store.store(), self.name) {
            Some(stamp) => {
                let entry = Entry { stamp, body };
                let taken = self.store.record_entity(uid, entry);
                stamped(taken, &stamp)
            }
            None => refused((uid, body), SiteFault::ClockFull),
        }
    }

    /// Puts a policy's text under an id, and replaces the text that the id has, if any.
    ///
    /// Returns the stamp, and whether the policy is impossible: whether its type is False in each environment of the
    /// schema.
    ///
    /// # Errors
    ///
    /// In this order; the site is then unchanged:
    ///
    /// - `Policy` (19): the id does not have 1 to 256 bytes.
    /// - `Policy` (10 to 18): the text is not that of a policy.
    /// - `Check` (40 to 46): the policy does not pass validation.
    /// - `ClockFull` (62): no stamp is left.
    /// - `NoMemory` (1): an allocation failed; possible at any point.
    pub fn put_policy(&mut self, id: &str, text: &str) -> Result<Put, SiteFault>
        ensures puts { PutsPolicy (schema_of self.old) self.old.name (store_in self.old) id.now text.now result
            (store_in self.new) }
        ensures stands { IfOk result
            (λ put. get (store_in self.new) (policy_name id.now) ≡ Some (issued put.stamp (Some text.now))) }
        ensures others { KeepsOtherNames (policy_name id.now) (store_in self.old) (store_in self.new) }
        ensures same { IsSameSite self.old self.new }
    {
        stamps_are_issued();
        match checked_policy(self.alloc, self.store.schema(), id, text) {
            Ok(judged) => {
                let CheckedPolicy {
                    id,
                    body,
                    impossible,
                } = judged;
                let stamped = self.record_policy(id, Some(body));
                put_from_stamp(stamped, impossible)
            }
            Err(fault) => Err(fault),
        }
    }

    /// Returns whether a policy has a text.
    fn has_policy(&self, id: &str) -> bool
        ensures { result ≡ is_some (text_under (store_in self.now) (policy_name id.now)) }
    {
        has_text(self.store.store().get_policy(id))
    }

    /// Returns whether an entity has a text.
    fn has_entity(&self, uid: &EntityUid) -> bool
        ensures { result ≡ is_some (text_under (store_in self.now) (entity_name uid.now)) }
    {
        has_text(self.store.store().get_entity(uid))
    }

    /// Stores a tombstone of a policy with the next stamp. After an error (`ClockFull` or `NoMemory`) the store is
    /// unchanged.
    fn remove_policy(&mut self, id: &str) -> Result<Stamp, SiteFault>
        requires { IsName (policy_name id.now) }
        ensures records { RecordsOr self.old.name (store_in self.old) (policy_name id.now) None result
            (store_in self.new) }
        ensures others { KeepsOtherNames (policy_name id.now) (store_in self.old) (store_in self.new) }
        ensures same { IsSameSite self.old self.new }
    {
        let id = String::from_str(self.alloc, id)?;
        self.record_policy(id, None)
    }

    /// Deletes a policy by writing a tombstone.
    ///
    /// # Errors
    ///
    /// In this order; the site is then unchanged:
    ///
    /// - `NotThere` (60): the id has no text.
    /// - `ClockFull` (62): no stamp is left.
    /// - `NoMemory` (1): an allocation failed; possible at any point.
    pub fn delete_policy(&mut self, id: &str) -> Result<Stamp, SiteFault>
        ensures deletes { Deletes self.old.name (store_in self.old) (policy_name id.now) result (store_in self.new) }
        ensures stands { IfOk result
            (λ stamp. get (store_in self.new) (policy_name id.now) ≡ Some (issued stamp None)) }
        ensures others { KeepsOtherNames (policy_name id.now) (store_in self.old) (store_in self.new) }
        ensures same { IsSameSite self.old self.new }
    {
        if !self.has_policy(id) {
            return Err(SiteFault::NotThere);
        }
        stamps_are_issued();
        ranges_stay();
        self.invariant_holds();
        self.remove_policy(id)
    }

    /// Stores a tombstone of an entity with the next stamp. After an error (`ClockFull` or `NoMemory`) the store is
    /// unchanged.
    fn remove_entity(&mut self, uid: &EntityUid) -> Result<Stamp, SiteFault>
        requires { IsName (entity_name uid.now) }
        ensures records { RecordsOr self.old.name (store_in self.old) (entity_name uid.now) None result
            (store_in self.new) }
        ensures others { KeepsOtherNames (entity_name uid.now) (store_in self.old) (store_in self.new) }
        ensures same { IsSameSite self.old self.new }
    {
        let uid = uid.copy()?;
        self.record_entity(uid, None)
    }

    /// Deletes an entity by writing a tombstone. Its children keep it as a parent, which is then not stored.
    ///
    /// # Errors
    ///
    /// In this order; the site is then unchanged:
    ///
    /// - `NotThere` (60): the uid has no text.
    /// - `ClockFull` (62): no stamp is left.
    /// - `NoMemory` (1): an allocation failed; possible at any point.
    pub fn delete_entity(&mut self, uid: &EntityUid) -> Result<Stamp, SiteFault>
        ensures deletes { Deletes self.old.name (store_in self.old) (entity_name uid.now) result (store_in self.new) }
        ensures stands { IfOk result
            (λ stamp. get (store_in self.new) (entity_name uid.now) ≡ Some (issued stamp None)) }
        ensures others { KeepsOtherNames (entity_name uid.now) (store_in self.old) (store_in self.new) }
        ensures same { IsSameSite self.old self.new }
    {
        if !self.has_entity(uid) {
            return Err(SiteFault::NotThere);
        }
        stamps_are_issued();
        ranges_stay();
        self.invariant_holds();
        self.remove_entity(uid)
    }

    /// Returns whether putting an entity would make the entity cyclic.
    fn makes_cycle(&self, entity: &Entity) -> Result<bool, NoMemory>
        ensures yes { IfOk result (λ yes. yes ≡ true → MakesCycle (IsEntityUnder (schema_of self.now))
            (schema_of self.now) (store_in self.now) entity.now) }
        ensures no { IfOk result (λ yes. yes ≡ false → MakesNoCycle (IsEntityUnder (schema_of self.now))
            (schema_of self.now) (store_in self.now) entity.now) }
    {
        self.store.would_cycle::<SchemaTexts<'static>>(entity)
    }

    /// Puts a parsed entity if `cycle` is false; an error is then `ClockFull` or `NoMemory`. Returns `WouldCycle` if
    /// `cycle` is true, and `NoMemory` if `cycle` is an error. After an error the store is unchanged.
    fn put_unless(
        &mut self,
        cycle: Result<bool, NoMemory>,
        uid: EntityUid,
        body: ReadText<Entity>,
    ) -> Result<Stamp, SiteFault>
        requires named { IsName (entity_name uid) }
        requires read { IsEntityUnder (schema_of self.old) uid body.text body.read }
        ensures puts { PutsUnless self.old.name (store_in self.old) cycle uid body.text result (store_in self.new) }
        ensures others { KeepsOtherNames (entity_name uid) (store_in self.old) (store_in self.new) }
        ensures same { IsSameSite self.old self.new }
    {
        match cycle {
            Ok(false) => self.record_entity(uid, Some(body)),
            Ok(true) => refused((uid, body), SiteFault::WouldCycle),
            Err(_) => refused((uid, body), SiteFault::NoMemory),
        }
    }

    /// Puts the entity that JSON describes, as its canonical text, and replaces the text that the entity's uid has, if
    /// any.
    ///
    /// The check for a cycle takes two look-ups for each parent or, if the ancestor cache is absent, a search of the
    /// ancestors that the entity would have. If the parents change, the cached ancestors of the entity and of all its
    /// descendants are rewritten.
    ///
    /// # Errors
    ///
    /// In this order; the site is then unchanged:
    ///
    /// - `Entity` (30 to 38): the JSON does not describe an entity under the schema.
    /// - `WouldCycle` (61): the put would make the entity cyclic; cycles of other entities do not matter.
    /// - `ClockFull` (62): no stamp is left.
    /// - `NoMemory` (1): an allocation failed; possible at any point.
    pub fn put_entity(&mut self, json: &Value) -> Result<Stamp, SiteFault>
        ensures puts { PutsEntity (parsed (schema_of self.old)) self.old.name (store_in self.old)
            (Some (view json.now)) result (store_in self.new) }
        ensures stands { IfOk result (λ stamp. (e : Entity)
            × (entity_stated (schema_of self.old) (Some (view json.now)) ≡ Ok e)
            × (get (store_in self.new) (entity_name e.uid) ≡ Some (issued stamp (Some (canonical_text e))))
            × KeepsOtherNames (entity_name e.uid) (store_in self.old) (store_in self.new)) }
        ensures same { IsSameSite self.old self.new }
    {
        stamps_are_issued();
        match stated_entity(self.alloc, self.store.schema(), json) {
            Ok(stated) => {
                let (uid, body) = stated;
                let cycle = self.makes_cycle(&body.read);
                self.put_unless(cycle, uid, body)
            }
            Err(fault) => Err(fault),
        }
    }
}
