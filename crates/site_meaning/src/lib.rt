//! The meaning of a store of stamped texts: its policies, its entities, and the one answer to each request.
//!
//! The store has each text with its parsed value. The relation between a text and its value is a parameter of the
//! contracts. `site_store` answers requests by the definitions of this crate.
#![tactic(auto)]

mod laws;
mod policies;
mod stored_entities;

pub use laws::{requests_have_one_answer, stored_actions_answer_alike, stores_have_one_reading};
pub use policies::policies_in;
pub use stored_entities::StoredEntities;

// of lower layers
pub use entity_hierarchy::{
    Answer, Entities, Entity, Lookup, PreparedRequest, Schema, actions_may_be_closed,
    answers_are_lawful, decide_prepared, declarations_are_read_as_stated, entity_data_under,
    expressions_have_one_outcome, paths_are_decided, scopes_do_not_err,
    stated_schemas_are_well_formed,
};
pub use stamped_store::laws::contents_are_the_texts;
