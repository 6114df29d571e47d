//! Functions that drop what was read. They are not generic, so that a crate that calls them does not prove the drop
//! code of these values again.

use crate::fault::EntityFault;
use entity_data::Entity;
use serde_json::Value;
use values::{EntityUid, Request};

/// Drops the result of [`read_entity`](crate::read_entity).
pub fn drop_entity(read: Result<Entity, EntityFault>) {
    drop(read);
}

/// Drops the result of [`read_request`](crate::read_request).
pub fn drop_request(read: Result<Request, EntityFault>) {
    drop(read);
}

/// Drops a JSON value, if there is one.
pub fn drop_json(value: Option<Value>) {
    drop(value);
}

/// Drops a uid, if there is one.
pub fn drop_uid(uid: Option<EntityUid>) {
    drop(uid);
}
