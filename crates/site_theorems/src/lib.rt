//! Theorems over relations between bytes and what they describe. They are about the steps of a site, the updates that
//! runs apply, the stores that runs leave, and the promises of systems of sites. An example meets their premises.
//!
//! The relations define schemas, entities, requests, messages and summaries as the Cedar reference guide and
//! docs/formats.md do, so that a reader can compare them with these texts. They cite no function that reads schemas,
//! entities, requests, messages or summaries from JSON, only `json_of`, which parses JSON. The crate has only theorems.
#![tactic(auto)]

mod example_laws;
mod laws;

pub use example_laws::something_conforms_under_a_schema;
pub use laws::{
    runs_leave_what_was_applied, sites_are_as_stated, sites_hold_what_they_applied,
    steps_are_as_stated, worlds_keep_promises_as_stated,
};
