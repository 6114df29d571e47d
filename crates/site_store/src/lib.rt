//! A store of stamped texts with two caches: an index of the store's policies by their scopes, and the ancestors of the
//! store's entities.
//!
//! With the index, a request can be decided over only the index's candidates, which include every policy whose scope
//! is true for the request. With the ancestor cache, nothing is searched if the hierarchy has no cycle. A change is
//! first joined into the store. Then the cache that the change concerns is updated for the entry that won, or is
//! dropped, for example if an allocation fails. A dropped cache changes no answer: without the index every policy is
//! evaluated, and without the ancestor cache the hierarchy is searched in place.
#![tactic(auto)]

mod ancestors;
mod answering;
mod index;
mod laws;
mod offering;
mod rebuild_rule;
mod scan_count;
mod store;
mod stored_world;
mod winning;

pub use index::{rebuild_index_if_missing, take_policy};
pub use laws::candidates_suffice;
pub use store::IndexedStore;
pub use winning::stored_wins;

// of lower layers
pub use scope_index::{MOST_ID_BYTES, Policy, ReadFault, parse_policy, texts_have_one_reading};
pub use site_meaning::{Answer, Entity, Schema, stated_schemas_are_well_formed};
pub use stamped_store::laws::{
    deltas_are_joined, readings_are_preserved, site_names_are_recognized, stamps_are_issued,
    updates_have_one_store,
};
pub use stamped_store::{COUNT_MAX, Entry, ReadText, SiteName, Stamp, StampedStore, is_site_name};
