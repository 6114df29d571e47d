//! The strict validator of policies under a schema.
//!
//! [`check`] first checks the names: each entity type and each action that a policy names must be declared. Then it
//! types the policy's expression in each environment of the schema, as the Cedar reference guide's "Policy
//! validation" describes.
#![tactic(auto)]

mod checking;
mod known;
mod laws;
mod scope;
mod walking;

pub use checking::{Verdict, check};
pub use known::{unknown_entity, unknown_tested_type};
pub use laws::{passing_policies_are_sound, policies_have_one_outcome};
pub use scope::{drop_expression, expression_of};

// of this layer
pub use type_checker::{TypeFault, parents_determine_ancestors};

// of lower layers
pub use type_checker::{
    Entity, EntityFault, Schema, SchemaFault, bytes_have_one_outcome, canonical_text,
    canonical_texts_are_read, entities_are_read_as_stated, read_entity, read_schema,
};
