//! The load of a file of policies and an array of entities into a site, by single puts.
#![tactic(auto)]

mod entity_file;
mod loading;
mod policies;
mod refusal;

pub use loading::loaded_state;

// of lower layers
pub use schema_decisions::{check_texts, decide_texts, decide_under, parse_schema};
