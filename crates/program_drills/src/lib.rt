//! Scripts of events: parsed whole, executed at the sites of one process, and reported line by line.
#![tactic(auto)]

mod drilling;
mod made;
mod one_line;
mod reporting;
mod split;
mod whole;

pub use drilling::drill_text;

// of lower layers
pub use http_service::{
    Refusal, ServingMemory, Site, SiteFault, Taken, error_line, fault_place, serve_connections,
};
pub use schema_decisions::{check_texts, decide_under};
