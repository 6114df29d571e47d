//! Finds where a rejected policy is at fault: the blamed expression or the undeclared name, with the path to it and its
//! span in the policy's text. Reports the error in words.
//!
//! Each core expression is a *form* with operands. A typing error *blames* the form whose demand is not met, or the
//! operand that does not meet it. A *path* leads from the whole expression to a part of it by the indexes of operands.
//! This crate searches for the error apart from [`check`](validator::check), and also finds the place; for a policy
//! that passes `check`, nothing is reported. The report has the cause, the environment and the types; for an undeclared
//! attribute or action, the declared ones.
//!
//! A *core node* is an expression in the policy's whole expression. A *span* is the range of bytes from the first to
//! the last of the tokens with which a core node or a name is written. The tokens of a name derive it; those of a node
//! derive the least expression that desugars to the node. A core expression has no positions, and in a tree only names,
//! keys, numbers and strings have their tokens. But a tree determines how many tokens it is written with: the module
//! `behind` skips these, so the path to a core node leads to the tokens of its written form.
#![tactic(auto)]

mod attributes;
mod behind;
mod blaming;
mod causes;
mod conditions;
mod descending;
mod details;
mod explaining;
mod form_laws;
mod forms;
mod judging;
mod laws;
mod leaves;
mod names;
mod parts;
mod places;
mod policies;
mod refusing;
mod scopes;
mod spans;
mod steps;
mod turns;
mod unknown_names;
mod wording;

pub use attributes::is_declared;
pub use blaming::{TypeBlame, blame_type};
pub use descending::BlamedForm;
pub use explaining::{PolicyFault, explain_fault};
pub use form_laws::trees_count_their_tokens;
pub use laws::{
    first_faults_blame_one_place, names_have_tokens, nodes_have_tokens,
    unknown_names_have_one_place,
};
pub use policies::{named_at, written_at};
pub use refusing::{PolicyBlame, blame};
pub use spans::{Span, name_span, span_of};
pub use unknown_names::{NameBlame, UnknownName, blame_name};

// of lower layers
pub use validator::{TypeFault, check};
