//! Cases of contexts without a request. A run of a site reads a context only within a request.
use crate::line::{BAD_ROW, Line, NO_MEMORY};
use crate::replies::push_fault;
use crate::written::{expanded_text, first_word};
use entities::{Entity, EntityFault, Schema, UidSet, canonical_text, read_context};
use http_service::SiteFault;
use json_words::read_json;
use plain::{NoMemory, Shared, pair_with};
use std::alloc::Global;
use values::{EntityUid, Record, SharedText, TypeName};

/// Returns the uid of this type and id.
fn uid_of(alloc: Global, type_name: TypeName, id: &str) -> Result<EntityUid, NoMemory> {
    let (type_name, id) = pair_with(type_name, expanded_text(alloc, id))?;
    let (type_name, id) = pair_with(type_name, SharedText::from_text(alloc, id))?;
    Ok(EntityUid { type_name, id })
}

/// Returns the uid of an action, if its type is a path.
fn action_of(alloc: Global, type_name: &str, id: &str) -> Result<Option<EntityUid>, NoMemory> {
    match TypeName::parse(alloc, type_name)? {
        Some(type_name) => Ok(Some(uid_of(alloc, type_name, id)?)),
        None => Ok(None),
    }
}

/// Returns the context that JSON describes for an action, or the first error.
fn context_in(
    alloc: Global,
    schema: &Schema,
    action: &EntityUid,
    json: &str,
) -> Result<Record, EntityFault> {
    match read_json(alloc, json.as_bytes()) {
        Ok(Some(value)) => read_context(alloc, schema, action, &value),
        Ok(None) => Err(EntityFault::BadShape),
        Err(_) => Err(EntityFault::NoMemory),
    }
}

/// Appends the canonical text of an entity.
fn push_entity(alloc: Global, line: &mut Line, entity: &Entity) {
    match canonical_text(alloc, entity) {
        Ok(bytes) => line.push(&bytes),
        Err(_) => line.push(NO_MEMORY),
    }
}

/// Appends a context as the attributes of its action.
fn push_attrs(alloc: Global, line: &mut Line, uid: EntityUid, attrs: Record) {
    match UidSet::new(Vec::new(alloc)) {
        Ok(parents) => push_entity(
            alloc,
            line,
            &Entity {
                uid,
                attrs,
                parents,
            },
        ),
        Err(_) => line.push(NO_MEMORY),
    }
}

/// Appends the context that JSON describes for an action, or the error of the JSON.
fn push_read(alloc: Global, schema: &Schema, action: EntityUid, json: &str, line: &mut Line) {
    match context_in(alloc, schema, &action, json) {
        Ok(context) => push_attrs(alloc, line, action, context),
        Err(fault) => push_fault(line, SiteFault::Entity(fault)),
    }
}

/// Appends the outcome of a case.
pub(crate) fn push_context(
    alloc: Global,
    schema: Option<&Shared<Schema>>,
    text: &str,
    line: &mut Line,
) {
    let Some(schema) = schema else {
        line.push(BAD_ROW);
        return;
    };
    let (type_name, text) = first_word(text);
    let (id, json) = first_word(text);
    match action_of(alloc, type_name, id) {
        Ok(Some(action)) => push_read(alloc, schema, action, json, line),
        Ok(None) => line.push(BAD_ROW),
        Err(_) => line.push(NO_MEMORY),
    }
}
