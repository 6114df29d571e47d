//! Entity data, of which one copy serves evaluation, decisions and queries of ancestors.
//!
//! Sources of entities and of actions implement one small trait each, so that nothing here depends on schemas.
#![tactic(auto)]

mod actions;
mod data;
mod entity;
mod source;
mod store;
mod stored_edges;
mod uid_set;
mod uids;
mod world;

pub use actions::{ActionSource, NoActions};
pub use data::EntityData;
pub use entity::Entity;
pub use source::EntitySource;
pub use store::EntityStore;
pub use uid_set::UidSet;
pub use world::Entities;

// of lower layers
pub use evaluator::ascending_lists_are_one;
