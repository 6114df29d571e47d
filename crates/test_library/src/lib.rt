//! Tests of library calls that no test case of `test_calls` or `test_sites` can express: failed allocations, orders,
//! copies, hierarchies and stores that change. They are in a crate of their own, since the gate proves a crate with
//! tests twice.
#![tactic(auto)]

#[cfg(test)]
mod evaluating;
#[cfg(test)]
mod extension_texts;
#[cfg(test)]
mod hierarchies;
#[cfg(test)]
mod messages;
#[cfg(test)]
mod names_and_values;
#[cfg(test)]
mod plain_types;
#[cfg(test)]
mod scopes;
#[cfg(test)]
mod shared;
#[cfg(test)]
mod stores;
