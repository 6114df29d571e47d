//! Explanations of what is rejected in a schema, policies, entities and a request, for their authors: each rejected
//! policy, the first rejected entity, and the request; and that a message is rejected.
//!
//! A *piece* is the position of a policy in its file; a *segment* is one of the texts that form an explanation, in
//! order.
//!
//! The explanation of an error says what is wrong, where, and what to do. An error reports a byte of a text: `places`
//! and `excerpts` show that byte as a line and a column. `table` has the meaning of each error code, an example, and
//! what to do; `cedar_site explain` prints from it, and tools/docs/check_docs.py compares docs/codes.md with it.
//!
//! Under a schema the explanation of an entity or a request also names the *part* at fault: a part of its JSON, to
//! which a *path* of keys and indexes leads. `entity_paths` and `request_paths` find it in a second pass, which parses
//! the item or the request again, by itself. So no part is named for a uid that occurs twice. `part_naming` has the
//! words: the JSON pointer and, for a part of the attributes or of the context, its declared type.
#![tactic(auto)]

mod entity_paths;
mod excerpts;
mod explaining;
mod finding;
mod forms;
mod given;
mod laws;
mod messages;
mod node_limits;
mod others;
mod parents;
mod part_faults;
mod part_naming;
mod pieces;
mod places;
mod pointers;
mod policies;
mod print;
mod request_paths;
mod segments;
mod source;
mod steps;
mod table;
mod text_parts;
mod type_paths;
mod unread;
mod value_search;
mod whole;
mod whole_values;

pub use excerpts::excerpt_at;
pub use explaining::explain_texts;
pub use given::{Given, NamedText};
pub use laws::{
    entity_parts_have_one_text, explained_texts_are_readable, explanations_are_readable,
    rejected_entities_have_one_path, rejected_requests_have_one_path,
    rejected_values_have_one_path, request_parts_have_one_text,
};
pub use messages::explain_message;
pub use places::{TextPosition, place_of};
pub use print::code_text;
pub use table::{CodeWords, words_of};
