//! Uids as JSON: parsed in both forms that Cedar has for them, and written in each.
//!
//! Entities, requests, messages and the service's bodies name entities in these forms, so this crate is below the
//! crates of all four. The only error of the functions that are defined here is `NoMemory`: the result for a value that
//! names no entity is `None`.
#![tactic(auto)]

mod laws;
mod names;
mod spelling;
mod uids;
mod writing;

pub use laws::names_read_back;
pub use names::read_name;
pub use uids::{read_uid, read_uids};
pub use writing::{write_entity, write_uid};

// of lower layers
pub use policy_grammar::{
    ActionScope, EntityScope, MOST_FILE_BYTES, MOST_ID_BYTES, MOST_POLICY_BYTES, Policy, ReadFault,
    Scope, file_names_differ, parse_policies, parse_policy, texts_have_one_reading,
};
