//! The tokens of a policy's text, parsers over tokens with the rules for proving them, names, and the trees of
//! expressions.
//!
//! A grammar is a relation between lists of tokens and trees. A parsing function of specs/ defines how the grammar is
//! parsed from the left with one token of lookahead, and the code follows that function. The rules of `proofs/` connect
//! grammar, parsing function and code, production by production; higher crates import them for their own grammars.
//! Names, which occur in all of these grammars, are parsed here.
//!
//! The crate `grammar_parsing` builds these trees, and `grammar_desugaring` defines their meaning; neither depends
//! on the other. This crate also finds repeated names, and parses relations, each an operand with at most one tail, by
//! given parsers of operand and tail.
#![tactic(auto)]

mod cursor;
mod fault;
mod front;
mod gaps;
mod kind_sets;
mod laws;
mod lex_fault;
mod lexer;
mod name_trees;
mod names;
mod piece;
mod quoted;
mod refused;
mod relations;
mod repeated;
mod repeats;
mod strings;
mod token;
mod tree;
mod words;
mod written;

pub use cursor::Cursor;
pub use fault::{StopCause, SyntaxFault};
pub use kind_sets::{KindSet, NameSet};
pub use laws::{kinds_of_words, lexing_is_unique, strings_have_one_meaning};
pub use lex_fault::LexFault;
pub use lexer::tokens;
pub use name_trees::{PathOrUid, PathTree, UidTree};
pub use names::{path, rest_of_name, uid};
pub use refused::read_to_end;
pub use relations::{Related, relation};
pub use repeated::{read_many, read_more};
pub use repeats::{NameAt, least_offset};
pub use strings::{decode_pattern, decode_string};
pub use token::{Token, TokenKind};
pub use tree::{Access, Comparison, ExprTree, KeyTree, RecordEntry, RequestKeyword, Sign, Term};
pub use written::{body, spelling};
