//! An index of policies by scope: finds the candidates of a request without visiting the other policies.
//!
//! A policy whose scope names an entity for the principal is a candidate only of the requests whose principal is that
//! entity or a descendant of it. If the scope names an entity for the resource alone, the same holds of the resource.
//! Every other policy is a candidate of each request.
#![tactic(auto)]

mod buckets;
mod candidates;
mod entries;
mod index;
mod scope_key;

pub use index::ScopeIndex;

// of lower layers
pub use policy_grammar::{
    ActionScope, Effect, EntityScope, MOST_ID_BYTES, Policy, ReadFault, Scope, file_names_differ,
    parse_policy, texts_have_one_reading,
};
