//! The type checker: the type of an expression under the strict validator's rules, or its error. Types that a schema
//! declares are borrowed from it, not copied.
//!
//! The *judgement* on an expression is its type with the capabilities that it gains, or its error. A *capability* for
//! `e.f` says that `e` is known to have the field `f`: if `e has f` has the type Bool, then the left side of
//! `e has f && x` gains it, and it is known in `x`.
#![tactic(auto)]

mod branching;
mod calls;
mod common_types;
mod dropping;
mod environment;
mod equal;
mod fields;
mod finishing;
mod joining;
mod judging;
mod known;
mod laws;
mod literal_types;
mod literals;
mod operators;
mod parts;
mod repeated_operand;
mod same_types;
mod static_type;
mod type_joins;
mod typed;
mod under;
mod whole;

pub use common_types::common;
pub use dropping::{drop_type, drop_types, truncate_types};
pub use environment::{TypingEnvironment, attributes_of, is_action_type};
pub use fields::{field_type, has_type};
pub use laws::environments_are_ordered;
pub use literal_types::{literal_type, record_literal_type, set_literal_type};
pub use operators::{address_test_type, binary_type, call_type, unary_type};
pub use static_type::{BooleanType, Leaf, StaticType};
pub use typed::Typed;
pub use under::judge_under;
pub use whole::judge_all;

// of this layer
pub use type_capabilities::Capability;
pub use typing::{
    TypeFault, expressions_have_one_judgement, parents_determine_ancestors,
    typed_expressions_are_sound,
};

// of lower layers
pub use entities::{
    ActionScope, Entity, EntityFault, EntityScope, Environment, Policy, Schema, SchemaFault, Scope,
    bytes_have_one_outcome, canonical_text, canonical_texts_are_read, entities_are_read_as_stated,
    read_entity, read_schema, stated_schemas_are_well_formed,
};
