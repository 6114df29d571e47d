//! Ancestors in a hierarchy of entities, by search; its cyclic entities, and its least cycle.
#![tactic(auto)]

mod graph;
pub mod hierarchy;
pub mod laws;
mod lists;
mod named_cycle;
mod numbers;
mod search;
pub mod searched;
mod walk;

pub use graph::{Changed, Edges, Graph, ParentsOf};
pub use hierarchy::{Ancestry, Hierarchy};
pub use lists::{is_among, listed};
pub use named_cycle::{least_cycle, least_cycle_among};
pub use numbers::on_cycles;
pub use search::{ancestors_of, is_ancestor, would_cycle};
pub use searched::Searched;
