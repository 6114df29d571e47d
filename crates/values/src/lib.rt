//! Names, requests and values: entity types, entity uids, names of policies and entities, authorization requests, and
//! the values that policies compute with.
#![tactic(auto)]

mod entity_uid;
mod laws;
mod name;
mod orders;
mod path;
mod record;
mod request;
mod set;
mod shared_text;
mod type_name;
mod value;
mod value_ref;

pub use entity_uid::EntityUid;
pub use laws::{
    path_tests_are_exact, records_are_maps, sets_hold_their_members, values_stay_well_formed,
};
pub use name::Name;
pub use orders::{
    entity_uids_are_ordered, names_are_ordered, records_are_ordered, requests_are_ordered,
    sets_are_ordered, type_names_are_ordered, values_are_ordered,
};
pub use record::Record;
pub use request::Request;
pub use set::Set;
pub use shared_text::SharedText;
pub use type_name::TypeName;
pub use value::{Kind, Value};
pub use value_ref::{BorrowedKind, ValueRef};

// of lower layers
pub use extensions::decimal::decimal_is_unique;
pub use extensions::ip_net::network_is_unique;
pub use extensions::{Decimal, IpNet};
