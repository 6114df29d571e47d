//! Desugaring of syntax trees of expressions into core expressions. Desugaring checks that numbers are in range, that
//! calls are known and have the right number of arguments, and that keys of records are distinct. It writes all
//! operators in terms of the core ones.
#![tactic(auto)]

mod build;
mod calls;
mod fault;
mod forms;
mod laws;
mod leaves;
mod measure;
mod measuring;
mod numbers;
mod pairs;
mod repeats;
mod whole;
mod words;

pub use fault::{DesugarFault, earlier_of};
pub use laws::{least_fault_is_reported, measures_add_up, repeats_are_exact, strings_are_read};
pub use measure::Measure;
pub use repeats::first_duplicate;
pub use whole::{build_expr, measure_expr, type_name};

// of this layer
pub use grammar_syntax::{
    LexFault, NameAt, Token, TokenKind, decode_string, spelling, strings_have_one_meaning, tokens,
};
