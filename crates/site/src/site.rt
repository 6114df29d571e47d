//! A site of the replicated store: its creation, its queries, and its messages to other sites.
ghost use Rattle.std.specs.Prelude.{◌≡◌, [], IfOk, option_map, Some, Ok};
ghost use Rattle.serde_json.specs.View.{view};
ghost use Rattle.site_store.specs.schema.Views.{schema_view, IsStated};
ghost use Rattle.site_store.specs.stamped_store.Deltas.{delta, summary_of};
ghost use Rattle.site_store.specs.stamped_store.SiteNames.{IsSiteName};
ghost use Rattle.site_store.specs.stamped_store.Stamping.{has_stamps_of};
ghost use Rattle.site_store.specs.stamped_store.Store.{store_of, updates};
ghost use Rattle.sync_messages.specs.sync_format.Summaries.{summary_text, summary_stated};
ghost use Rattle.sync_messages.specs.sync_format.Messages.{state_text, delta_text, updates_stated};
ghost use Rattle.site.specs.SoundAnswers.{HasPermittedErrors};
ghost use Rattle.site.specs.Readings.{parsed};
ghost use Rattle.site.specs.SiteViews.{schema_of, store_in, IsValidStore};
ghost use Rattle.site.specs.Steps.{Answers, policy_found, most_count};

use crate::checking::stated_request;
use crate::fault::SiteFault;
use crate::ranges::ranges_stay;
use crate::soundness_laws::stored_answers_are_sound;
use crate::under_schema::readings_stay;
use plain::{NoMemory, Shared};
use serde_json::Value;
use site_store::{Answer, COUNT_MAX, IndexedStore, Schema, SiteName, Stamp};
use std::alloc::Global;
use std::marker::Model;
use sync_messages::{SchemaTexts, Summary, write_delta, write_state, write_summary};

/// A site: a schema, a name, and a store of stamped texts with their parsed forms.
///
/// Contracts see these three as a `SiteView`. The abstract store of a view (`store_in`) has at most one stamped body
/// for each policy id and each uid of an entity.
#[derive(Drop)]
pub struct Site {
    pub(crate) alloc: Global,
    pub(crate) name: SiteName,
    pub(crate) store: IndexedStore,
}

impl Model for Site {
    ghost use Rattle.std.specs.Coded.{codes};
    ghost use Rattle.site_meaning.specs.schema_types.contracts.cedar.CedarType as cedar;
    ghost use Rattle.values.specs.ValueCode.{value_code};
    ghost use Rattle.site_store.specs.grammar_core.contracts.expr.Expr as expr;
    ghost use Rattle.site_store.specs.schema.Views.{schema_view};
    ghost use Rattle.site.specs.SiteViews.{SiteView, IsSite};

    ghost Value = { SiteView };

    ghost coded = { Prim.hlevel (codes, cedar.the_row.coded, value_code, expr.the_row.coded) };

    ghost view = { λ a. record { schema = a.store.schema; name = a.name; kept = a.store.kept } };

    ghost invariant = { λ a. IsSite (schema_view a.store.schema) a.name a.store.kept };
}

impl Site {
    /// Creates an empty site. Sites may share `schema`.
    ///
    /// `name` goes into the site's stamps and must satisfy [`is_site_name`]. Does not allocate.
    ///
    /// [`is_site_name`]: site_store::is_site_name
    pub fn new(alloc: Global, schema: Shared<Schema>, name: &str) -> Self
        requires { IsSiteName name.now }
        ensures schema { result.schema ≡ schema }
        ensures name { result.name ≡ name.now }
        ensures empty { store_in result ≡ store_of [] }
    {
        readings_stay();
        ranges_stay();
        Site {
            alloc,
            name: SiteName::new(name),
            store: IndexedStore::new(alloc, schema),
        }
    }

    /// Returns the allocator.
    pub(crate) fn alloc(&self) -> Global {
        self.alloc
    }

    /// Returns the schema.
    pub fn schema(&self) -> &Schema
        ensures { result.now ≡ self.now.schema }
    {
        self.store.schema()
    }

    /// Proves that some bytes describe the site's schema, that the names and stamps of its store are in their ranges,
    /// and that each text can be parsed under the schema; also that `most_count` is `COUNT_MAX`. No-op.
    pub fn invariant_holds(&self)
        ensures stated { IsStated self.now.schema }
        ensures held { IsValidStore (schema_of self.now) (store_in self.now) }
        ensures most { most_count ≡ COUNT_MAX }
    {
        self.store.schema().is_stated();
        let _ = self.store.store().policies();
    }

    /// Returns the text and the stamp of the policy with this id, or `None` if the id has no text.
    ///
    /// O(log n) for n entries of policies, tombstones included. Does not allocate.
    pub fn get_policy(&self, id: &str) -> Option<(&str, Stamp)>
        ensures { option_map (λ f. (f.0.now, f.1)) result ≡ policy_found (store_in self.now) id.now }
    {
        match self.store.store().get_policy(id) {
            Some(entry) => match &entry.body {
                Some(body) => Some((body.text.as_str(), entry.stamp)),
                None => None,
            },
            None => None,
        }
    }

    /// Returns whether some entry of the store, a tombstone included, has a stamp of the site `name`.
    ///
    /// O(n) for n entries. Does not allocate.
    pub fn has_stamps_of(&self, name: SiteName) -> bool
        ensures { result ≡ has_stamps_of name (store_in self.now) }
    {
        self.store.store().has_stamps_of(name)
    }

    /// Returns the state: the whole store as a message. Other sites of the schema parse the message as the store's
    /// updates.
    ///
    /// # Errors
    ///
    /// - `NoMemory`: an allocation failed.
    pub fn state(&self) -> Result<Vec<u8>, NoMemory>
        ensures text { IfOk result (λ b. b.items ≡ state_text (schema_of self.now).label (store_in self.now)) }
        ensures reads_back { IfOk result
            (λ b. updates_stated (schema_of self.now).label b.items ≡ Ok (updates (store_in self.now))) }
    {
        write_state(self.alloc, self.store.schema(), self.store.store())
    }

    /// Returns the summary: the names of the store with their stamps, as a message to other sites of the schema.
    ///
    /// # Errors
    ///
    /// - `NoMemory`: an allocation failed.
    pub fn summary(&self) -> Result<Vec<u8>, NoMemory>
        ensures text { IfOk result
            (λ b. b.items ≡ summary_text (schema_of self.now).label (summary_of (store_in self.now))) }
        ensures reads_back { IfOk result
            (λ b. summary_stated (schema_of self.now).label b.items ≡ Ok (summary_of (store_in self.now))) }
    {
        ranges_stay();
        write_summary(self.alloc, self.store.schema(), self.store.store())
    }

    /// Returns a delta: the entries whose names the summary `since` lacks or has with a smaller stamp, as a message.
    /// Other sites of the schema parse the message as the updates of those entries.
    ///
    /// # Errors
    ///
    /// - `NoMemory`: an allocation failed.
    pub fn delta(&self, since: &Summary) -> Result<Vec<u8>, NoMemory>
        ensures text { IfOk result
            (λ b. b.items ≡ delta_text (schema_of self.now).label (delta (store_in self.now) since.now)) }
        ensures reads_back { IfOk result (λ b. updates_stated (schema_of self.now).label b.items
            ≡ Ok (updates (delta (store_in self.now) since.now))) }
    {
        ranges_stay();
        write_delta(self.alloc, self.store.schema(), self.store.store(), since)
    }

    /// Returns the answer to the request that JSON describes, over the policies and entities that are parsed from the
    /// texts of the store, and the actions of the schema.
    ///
    /// Each error in the answer is `EntityDoesNotExist` or `ArithBoundsError`.
    ///
    /// Evaluates only the candidates that the policy index has for the request, and looks up ancestors in the ancestor
    /// cache. If the index is absent, or there is no memory for its candidates, every policy is a candidate. If the
    /// cache is absent, the hierarchy is searched for ancestors, and all of it is searched for a cycle. In
    /// each of these cases the time grows with the store.
    ///
    /// # Errors
    ///
    /// - `Request` (63, with the code of the inner error): the JSON does not describe a request under the schema.
    /// - `NoMemory` (1): an allocation failed; possible at any point.
    pub fn authorize(&self, json: &Value) -> Result<Answer, SiteFault>
        ensures answers { Answers (parsed (schema_of self.now)) (store_in self.now) (Some (view json.now)) result }
        ensures right { IfOk result HasPermittedErrors }
    {
        stored_answers_are_sound();
        let schema = self.store.schema();
        schema.is_stated();
        let request = stated_request(self.alloc, schema, json)?;
        let answered = self.store.answer::<SchemaTexts<'static>>(&request);
        drop(request);
        Ok(answered?)
    }

    /// Rebuilds the index if it is absent, and the ancestor cache if it is absent and would not be too large. Each
    /// applied put, deletion or message does this too. The index or the cache stays absent if its allocation fails. No
    /// entry changes.
    ///
    /// If the last build of the ancestor cache found too many ancestors, this call builds the cache only after many
    /// further updates of entities (`RebuildRule` of site_store counts them).
    ///
    /// A new site has no ancestor cache: call this to speed up queries before the first put or message.
    pub fn rebuild(&mut self)
        ensures { self.new ≡ self.old }
    {
        self.store.rebuild();
    }

    /// Returns whether the ancestor cache is present, and whether the policy index is; for tests alone.
    pub fn caches_present(&self) -> (bool, bool) {
        self.store.caches_present()
    }

    /// Returns how many policies the last answer evaluated; if it reports a cycle, how many it would have evaluated
    /// without one. For tests alone.
    pub fn evaluated(&self) -> usize {
        self.store.evaluated()
    }

    /// Drops the caches, so that the next answers evaluate all policies and search the hierarchy; for tests and
    /// measurements alone.
    pub fn drop_caches(&mut self)
        ensures { self.new ≡ self.old }
    {
        self.store.drop_caches();
    }
}
