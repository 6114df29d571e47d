//! A schema file: its form, and its names resolved.
#![tactic(auto)]

mod appending_items;
mod declaring;
mod file_laws;
mod joining;
mod laws;
mod naming;
mod order;
mod qualifying;
mod reading;
mod reading_actions;
mod reading_names;
mod reading_types;
mod records;
mod stated;

pub use laws::{
    files_are_in_order, files_name_their_entity_types, files_name_their_own, not_both, one_file,
    one_refusal, shapes_are_records, some_outcome,
};
pub use naming::read_named;
pub use qualifying::{ResolvedAction, ResolvedAppliesTo, ResolvedEntityType, ResolvedFile};
pub use stated::StatedParent;
