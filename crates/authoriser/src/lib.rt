//! The authoriser: the answer to a request over policies and the stored entities.
//!
//! [`decide`] implements the Cedar reference guide's "Authorization": a request is allowed if some `permit` policy is
//! satisfied and no `forbid` policy is, and an erroring policy counts for neither. A policy's outcome is the result
//! of evaluating its whole expression, scope and conditions. By a rule of this product, no policy is evaluated if the
//! hierarchy has a cycle: the request is denied, and the answer names the least cycle.
#![tactic(auto)]

mod ancestor_memo;
mod answer;
mod conditions;
mod deciding;
mod laws;
mod outcome;
mod prepared_request;
mod request_entities;
mod scopes;
mod tally;

pub use answer::{Answer, Decision, ErringPolicy};
pub use deciding::{decide, decide_prepared};
pub use laws::{answers_are_lawful, scopes_do_not_err};
pub use outcome::{Outcome, PolicyError};
pub use prepared_request::PreparedRequest;

// of lower layers
pub use evaluator::{Lookup, expressions_have_one_outcome, paths_are_decided};
pub use scope_index::{Policy, file_names_differ};
