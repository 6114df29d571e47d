//! Stamps, entries, joins, and stores that keep the greatest entry at each name.
//!
//! An entry is a stamp and a body: a text or a tombstone. Entries are ordered, and a store joins each applied entry
//! with the entry at its name: it keeps the greater of the two. So the store of a set of updates does not depend on
//! their order, repeats or grouping.
#![tactic(auto)]

mod entry;
mod join;
pub mod laws;
mod readings;
mod site_name;
mod stamped;
mod stamping;
mod store;

pub use entry::{Entry, ReadText, Stamp};
pub use join::Join;
pub use readings::Readings;
pub use site_name::{SiteName, is_site_name};
pub use stamped::{Short, Stamped};
pub use store::{COUNT_MAX, StampedStore};
