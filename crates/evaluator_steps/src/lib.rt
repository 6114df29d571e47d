//! Two steps of evaluation that determine which error is reported: the value of an entity's attribute, and
//! short-circuit evaluation of `&&`.
#![tactic(auto)]

mod attributes;
mod connectives;

pub use attributes::attribute_in;
pub use connectives::decided_by_first;
