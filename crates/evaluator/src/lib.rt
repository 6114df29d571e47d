//! The evaluator of expressions, under a request and over the stored entities.
#![tactic(auto)]

mod borrowed_or_owned;
mod calls;
mod choosing;
mod eval_env;
mod evaluating;
mod fault;
mod fields;
mod laws;
mod leaves;
mod lookup;
mod numbers;
mod operands;
mod operators;
mod steps;
mod testing;

pub use borrowed_or_owned::BorrowedOrOwned;
pub use eval_env::{EvalEnv, RequestEnv};
pub use evaluating::{evaluate, evaluate_condition, evaluate_in, evaluate_test};
pub use fault::EvalFault;
pub use laws::expressions_have_one_outcome;
pub use lookup::Lookup;

// of lower layers
pub use ancestor_search::laws::{
    ascending_lists_are_one, cycles_have_one_least, paths_are_decided,
};
pub use ancestor_search::{
    Ancestry, Graph, ParentsOf, ancestors_of, is_among, is_ancestor, least_cycle, on_cycles,
};
