//! Entity data under a schema: the stored entities and the schema's actions.
//!
//! A store of entities implements the trait `EntitySource` of `entity_data`; here [`SchemaActions`] implements
//! `ActionSource` for the actions of a schema.
#![tactic(auto)]

mod actions;
mod laws;
mod world;

pub use actions::SchemaActions;
pub use laws::{actions_may_be_closed, entities_are_no_actions, reach_decides};
pub use world::{Entities, entity_data_under};

// of this layer
pub use entities::{
    Entity, EntityFault, EntitySource, entities_are_read_as_stated, read_entity, read_request,
    requests_are_read_as_stated, requests_have_one_outcome,
};

// of lower layers
pub use authoriser::{
    Answer, Lookup, Policy, PreparedRequest, answers_are_lawful, decide_prepared,
    expressions_have_one_outcome, file_names_differ, paths_are_decided, scopes_do_not_err,
};
pub use entities::{
    Schema, bytes_have_one_outcome, declarations_are_read_as_stated, stated_schemas_are_well_formed,
};
