//! The parser of uids, policies and files of policies, from a text to a tree and then to core expressions. A file's
//! text is also cut into the texts of its policies, each of which, parsed by itself, gives the same policy as in the
//! file, or an error.
#![tactic(auto)]

mod annotations;
mod conditions;
mod core_of;
mod cut_laws;
mod cuts;
mod dropping;
mod fault;
mod file_laws;
mod known_names;
mod laws;
mod limits;
mod names;
mod plain_uids;
mod policy;
mod repeats;
mod texts;
mod tree_check;
mod trees;

pub use annotations::repeated_annotation;
pub use cut_laws::{files_are_cut_by_policies, texts_are_self_contained};
pub use cuts::policy_texts;
pub use dropping::drop_tree;
pub use fault::ReadFault;
pub use file_laws::texts_read_as_in_their_file;
pub use laws::{file_names_differ, reported_fault_is_least, texts_have_one_reading};
pub use limits::{MOST_ID_BYTES, heads_are_small};
pub use policy::{ActionScope, Effect, EntityScope, Policy, Scope};
pub use texts::{parse_policies, parse_policy, parse_uid};
pub use trees::{MOST_FILE_BYTES, MOST_POLICY_BYTES, policy_tree, policy_trees, uid_tree};

// of this layer
pub use grammar_core::{Binary, Expr, Literal, Pattern};
pub use grammar_desugaring::{Token, tokens};
pub use grammar_parsing::{LexFault, lexing_is_unique};
