//! Core expressions: what the text of a policy becomes when it is parsed and rewritten.
//!
//! Contracts see an expression as an algebraic data type, on which `≡` is structural equality.
#![tactic(auto)]

mod builders;
mod expr;
mod laws;
mod leaf;
mod operator;
mod pattern;
mod sharing;
mod size;

pub use expr::{Expr, Named};
pub use laws::patterns_are_decided;
pub use leaf::{Literal, Variable};
pub use operator::{Binary, BinaryCall, Method, Unary, UnaryCall, function_named, method_named};
pub use pattern::Pattern;
pub use size::{HEIGHT_MAX, NODES_MAX};
