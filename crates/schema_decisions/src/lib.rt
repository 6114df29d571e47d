//! Decisions of requests and checks of policies under a schema, from bytes to the lines that are printed.
#![tactic(auto)]

mod check_laws;
mod check_refusals;
mod checking;
mod deciding;
mod dropping;
mod laws;
mod lines;
mod policies;
mod reading;
mod refusal;
mod under_schema;

pub use check_laws::checks_have_one_outcome;
pub use check_refusals::{check_refusal, schema_refusal};
pub use checking::check_texts;
pub use deciding::decide_under;
pub use dropping::{drop_policies, drop_schema};
pub use laws::{decisions_are_as_stated, texts_have_one_outcome};
pub use reading::parse_schema;
pub use under_schema::UnderSchema;

// of this layer
pub use decision_texts::{
    Place, Refusal, answer_line, check_entities, decide_texts, policies_of_file,
};

// of lower layers
pub use decision_texts::{Answer, Policy};
pub use validator::Schema;
