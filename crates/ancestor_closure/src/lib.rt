//! An ancestor cache of a hierarchy: the ancestors and the children of each entity, and the cyclic entities. It is
//! updated incrementally when the parents of one entity change.
#![tactic(auto)]

pub mod ancestor_cache;
mod budget;
mod by_parent;
mod changing;
mod children;
pub mod closed;
mod cycles;
mod lists;
mod relatives;
mod whole_graph;

pub use ancestor_cache::AncestorCache;
pub use budget::CacheBudget;
pub use changing::{add_entries, follow, parents_by};
pub use children::add_to_all;
pub use closed::Closed;
pub use cycles::{are_none, members};
pub use lists::{is_in, lent, list_within, shared_all};
pub use relatives::{Relatives, ancestors_at, shared, write_list};

// of this layer
pub use ancestor_search::{Ancestry, Hierarchy, ParentsOf, Searched, would_cycle};
