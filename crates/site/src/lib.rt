//! A site: a store of stamped texts under one schema, its commands, messages and queries; runs of a site, systems of
//! sites, and soundness of their answers.
//!
//! Each message and summary that was made may be delivered to any site, any number of times and in any order. Theorems
//! prove what holds in all systems at every moment. [`simulate`] runs a system event by event.
//!
//! A site has policies and entities only as texts of its store, each with its parsed value. Answers come from these
//! values. An index of the policies and an ancestor cache make answers faster; no contract of a site mentions these
//! caches.
//!
//! The store at the end of a run is the join of the updates that the site had and those that it applied. So sites of
//! one schema that had and applied equal sets of updates have equal stores. The order, the repeats and the grouping of
//! the updates do not matter.
//!
//! Values and the attributes of entities have their declared types, and requests are of an environment of the schema.
//! So parsed entities and a parsed request conform to the schema, and policies that pass validation are sound over
//! them. It follows that no answer to a parsed request, over a store whose texts were parsed under the schema, reports
//! an error of type, of an attribute or of an extension function.
#![tactic(auto)]

mod answering;
mod checking;
mod commands;
mod event;
mod fault;
mod input;
mod laws;
mod leaving;
mod outcome;
mod playing;
mod ranges;
mod reply;
mod site;
mod soundness_laws;
mod step_laws;
mod under_schema;
mod updates;
mod world;

pub use checking::stated_entity;
pub use event::{Event, EventReply, Operation};
pub use fault::SiteFault;
pub use input::Input;
pub use laws::{first_sites_are_distinct, replies_determine_worlds, worlds_keep_promises};
pub use leaving::runs_leave_what_they_took;
pub use outcome::{Put, Taken};
pub use reply::{Found, Reply};
pub use site::Site;
pub use soundness_laws::{
    parsed_data_conforms, stored_answers_are_sound, validation_is_sound,
    what_is_read_is_of_its_type,
};
pub use step_laws::{equal_updates_leave_equal_stores, inputs_have_one_outcome, runs_are_sound};
pub use world::{World, simulate};

// of lower layers
pub use entities::{entities_are_read_as_stated, requests_are_read_as_stated};
pub use json_words::Scratch;
pub use site_meaning::declarations_are_read_as_stated;
pub use site_store::{SiteName, Stamp, is_site_name, site_names_are_recognized};
pub use sync_messages::{
    entity_texts_are_read_as_stated, messages_are_read_as_stated, names_read_back,
    summaries_are_read_as_stated, updates_are_read_as_stated,
};
