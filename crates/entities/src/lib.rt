//! Entities, contexts and requests, parsed from JSON by what a schema declares, and the canonical text of an entity.
//!
//! The result depends only on the JSON and the schema: no other entity is looked up, so parents need not be stored.
//! Whatever bytes an entity was parsed from under a schema, its canonical text is parsed under that schema as the same
//! entity, and no other entity parsed under that schema has this text.
#![tactic(auto)]

mod as_stated;
mod canonical;
mod canonical_laws;
mod contexts;
mod dropping;
mod environments;
mod fault;
mod laws;
mod parents;
mod reading;
mod requests;
mod stated;
mod type_parts;
mod value_laws;
mod value_reading;
mod value_writing;

pub use as_stated::{
    contexts_are_read_as_stated, entities_are_read_as_stated, requests_are_read_as_stated,
    values_are_read_as_stated,
};
pub use canonical::canonical_text;
pub use canonical_laws::{canonical_texts_are_read, json_texts_are_utf8};
pub use contexts::read_context;
pub use dropping::{drop_entity, drop_json, drop_request, drop_uid};
pub use fault::EntityFault;
pub use laws::{action_type_test_is_exact, entities_read_back, requests_have_one_outcome};
pub use reading::read_entity;
pub use requests::read_request;
pub use stated::is_absent_or_object;
pub use type_parts::{Field, declared_type, element_type, record_fields};
pub use value_laws::{
    canonical_is_read, canonical_nests_within_its_type, json_is_read_again, records_are_read_again,
    values_have_no_float, written_is_read_again,
};
pub use value_reading::{is_of_type, read_record};

// of this layer
pub use entity_data::{
    ActionSource, Entities, Entity, EntitySource, EntityStore, NoActions, UidSet,
};
pub use entity_uids::{names_read_back, read_name, read_uid};

// of lower layers
pub use entity_uids::{ActionScope, EntityScope, Policy, Scope};
pub use schema::{
    Environment, Schema, SchemaFault, bytes_have_one_outcome, declarations_are_read_as_stated,
    read_schema, stated_schemas_are_well_formed,
};
