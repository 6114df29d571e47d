//! Types of a schema, in three stages: as JSON writes them, with resolved names, and expanded; with the theorems about
//! all three. Names are resolved here (which declaration a name means in its namespace, and which action a type and an
//! id mean), and common types expanded: each replaced by its definition, with the sizes of the results. An order of a
//! graph's nodes is found here too: each node comes after its successors, except those that lead back to it.
#![tactic(auto)]

mod actions;
mod cedar;
mod commons;
mod fault;
mod forms;
mod keys;
mod laws;
mod names;
mod order;
mod place_order;
mod qualified;
mod raw;
mod size;
mod table;
mod types;
mod whole;
mod write;

pub use actions::{action_type, declared_action, find_action_of_type};
pub use cedar::CedarType;
pub use commons::{demand_sizes, write_commons};
pub use fault::SchemaFault;
pub use forms::{Form, form_named};
pub use keys::{optional, required_text};
pub use laws::{
    cycles_have_no_expansion, found_names_are_declared, keys_ascend, one_written,
    types_expand_or_some_common_does_not, what_has_no_expansion_leads_back,
    written_entities_are_named,
};
pub use names::{Names, built_in, find, full_name, is_other, is_qualified, resolve};
pub use place_order::successors_first;
pub use qualified::{QualifiedType, ResolvedCommon};
pub use raw::RawType;
pub use table::{CommonEntry, Size, Table};
pub use types::{read_type, read_type_name};
pub use whole::write_whole;
