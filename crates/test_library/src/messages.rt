//! Tests of the messages of errors that no test case of `test_sites` shows (its cases show messages by the word
//! `says`).
use crate::shared::holds;
use authoriser::PolicyError;
use evaluator::EvalFault;
use plain::NoMemory;
use policy_grammar::ReadFault;
use schema::SchemaFault;
use stamped_store::Short;
use std::alloc::Global;
use std::fmt::Display;
use std::process::Abort;

// Fails the test if an error is not displayed as this text.
fn says<E: Display>(rt: &impl Abort, alloc: Global, error: &E, text: &str) -> Result<(), NoMemory> {
    let shown = format!(in alloc; "{error}")?;
    holds(rt, shown.as_str() == text, text);
    Ok(())
}

#[test]
fn schema_errors_have_messages(rt: HostRuntime) -> Result<(), NoMemory> {
    for (error, text) in &[
        (SchemaFault::NoMemory, "schema 1: out of memory"),
        (SchemaFault::NotJson, "schema 20: not JSON"),
        (
            SchemaFault::BadShape,
            "schema 21: JSON without the form of a schema",
        ),
        (
            SchemaFault::UnknownName,
            "schema 22: name of no declared type or action",
        ),
        (
            SchemaFault::TypeCycle,
            "schema 23: common type that contains itself",
        ),
        (
            SchemaFault::ActionCycle,
            "schema 24: action that is its own ancestor",
        ),
        (
            SchemaFault::TypeTooLarge,
            "schema 25: type of over 10,000 parts, or over 64 deep",
        ),
    ] {
        says(&rt, rt.alloc(), error, text)?;
    }
    Ok(())
}

#[test]
fn evaluation_errors_have_messages(rt: HostRuntime) -> Result<(), NoMemory> {
    for (error, text) in &[
        (EvalFault::EntityDoesNotExist, "entity does not exist"),
        (EvalFault::AttrDoesNotExist, "attribute does not exist"),
        (EvalFault::TypeError, "operand of the wrong type"),
        (EvalFault::ArithBoundsError, "integer overflow"),
        (EvalFault::ExtensionError, "invalid decimal or IP address"),
        (EvalFault::NoMemory, "out of memory"),
    ] {
        says(&rt, rt.alloc(), error, text)?;
    }
    Ok(())
}

#[test]
fn policy_errors_have_messages(rt: HostRuntime) -> Result<(), NoMemory> {
    for (error, text) in &[
        (PolicyError::EntityDoesNotExist, "entity does not exist"),
        (PolicyError::AttrDoesNotExist, "attribute does not exist"),
        (PolicyError::TypeError, "operand of the wrong type"),
        (PolicyError::ArithBoundsError, "integer overflow"),
        (PolicyError::ExtensionError, "invalid decimal or IP address"),
    ] {
        says(&rt, rt.alloc(), error, text)?;
    }
    Ok(())
}

#[test]
fn memory_errors_have_messages(rt: HostRuntime) -> Result<(), NoMemory> {
    let alloc = rt.alloc();
    says(&rt, alloc, &ReadFault::NoMemory, "policy 1: out of memory")?;
    says(
        &rt,
        alloc,
        &Short { taken: 7 },
        "out of memory after 7 entries",
    )
}
