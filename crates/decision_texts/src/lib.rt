//! Decisions on texts: from the texts of policies, entities and a request to the line of an answer or of an error. A
//! [`Setting`], such as a schema or none, says how the texts are parsed.
#![tactic(auto)]

mod bare;
mod deciding;
mod entity_array;
mod laws;
mod no_schema;
mod policies;
mod request;
mod request_reading;
mod setting;

pub use deciding::{decide_texts, decide_under_setting};
pub use entity_array::check_entities;
pub use laws::{decisions_are_as_stated, texts_have_one_outcome};
pub use policies::policies_of_file;
pub use setting::Setting;

// of this layer
pub use answer_lines::{Place, Refusal, answer_line, error_line};

// of lower layers
pub use answer_lines::{Answer, Policy, texts_have_one_reading};
