//! The schema that bytes describe: its entity types with their shapes, its actions, the hierarchies of both, and the
//! environments of requests; and the look-ups in a schema.
#![tactic(auto)]

mod answers;
mod cycles;
mod environments;
mod hierarchies;
mod label;
mod laws;
mod listed_environments;
mod lookups;
mod maps;
mod numbering;
mod parts;
mod reading;
mod shapes;
mod spans;
mod type_numbers;

pub use answers::Schema;
pub use cycles::demand_no_cycle;
pub use label::label_of;
pub use laws::{
    bytes_have_one_outcome, declarations_are_read_as_stated, files_are_read_as_stated,
    names_are_resolved_as_stated, stated_schemas_are_well_formed, types_are_read_as_stated,
};
pub use listed_environments::{environments_in_order, make_place};
pub use lookups::{action_has_ancestor, may_have_parent, parents_at};
pub use parts::{EntityDecl, Environment, EnvironmentKey};
pub use reading::read_schema;
pub use spans::{NumberSpan, has_number, joined};

// of this layer
pub use schema_types::{CedarType, SchemaFault};
