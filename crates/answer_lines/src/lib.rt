//! The output lines of answers and of errors.
#![tactic(auto)]

mod lines;
mod place;
mod refusal;

pub use lines::answer_line;
pub use place::Place;
pub use refusal::{Refusal, error_line};

// of lower layers
pub use authoriser::{Answer, answers_are_lawful, decide};
pub use entity_uids::{
    MOST_FILE_BYTES, MOST_POLICY_BYTES, Policy, ReadFault, file_names_differ, names_read_back,
    parse_policies, read_name, read_uid, read_uids, texts_have_one_reading,
};
