//! The parsers of expressions and of policies, from tokens to trees.
//!
//! Unless an allocation fails, a list of tokens that derives a tree in the grammar is parsed as that tree, which is the
//! only one. Any other list is rejected at the first token that cannot follow those before it, or at the list's end.
//!
//! A list of tokens derives at most one tree in the grammar. [`expr`] parses the front of a list, as far as the next
//! token can continue an expression.
#![tactic(auto)]

mod condition_words;
mod expression;
mod expression_laws;
mod laws;
mod levels;
mod operators;
mod policy;
mod policy_sets;
mod primary;
mod read;
mod relations;
mod scope;
mod symbols;
mod token_sets;
mod tree;

pub use expression_laws::expression_is_unique;
pub use laws::{reading_is_unique, trees_are_made_of_tokens};
pub use read::{read_policies, read_policy, read_uid};
pub use tree::{ActionTree, Annotation, Condition, ConditionWord, PartTree, PolicyTree};

// of this layer
pub use grammar_syntax::{LexFault, PathTree, SyntaxFault, UidTree, lexing_is_unique};
