//! Messages between sites under a schema. Each text in a message is a policy that passes validation, or the canonical
//! text of an entity.
//!
//! [`SchemaTexts`] parses these texts. Which texts it accepts does not depend on a store.
#![tactic(auto)]

mod as_stated;
mod laws;
mod messages;
mod texts;

pub use as_stated::{
    entity_texts_are_read_as_stated, messages_are_read_as_stated, summaries_are_read_as_stated,
    updates_are_read_as_stated,
};
pub use laws::{canonical_texts_are_read, states_read_back, stored_texts_have_one_reading};
pub use messages::{
    read_message, read_summary, write_delta, write_state, write_summary, write_updates,
};
pub use texts::SchemaTexts;

// of this layer
pub use sync_format::{
    MessageFault, Summary, Update, messages_have_one_outcome, messages_read_back,
    summaries_read_back, valid_messages_are_read,
};

// of lower layers
pub use sync_format::names_read_back;
pub use validator::{
    Entity, Schema, TypeFault, bytes_have_one_outcome, check, parents_determine_ancestors,
    passing_policies_are_sound, policies_have_one_outcome,
};
