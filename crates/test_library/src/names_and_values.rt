//! Tests of names and values: their orders, and copies, also when allocations fail.
use crate::shared::{Copied, ended, finished, holds, is_copied, uid_of};
use extensions::{Decimal, IpNet};
use plain::{NoMemory, Text, both};
use std::alloc::{AllocError, Global};
use std::process::Abort;
use values::*;

impl Copied for Name {
    fn copied(&self, _alloc: Global) -> Result<Name, NoMemory> {
        self.copy()
    }
}

impl Copied for Value {
    fn copied(&self, alloc: Global) -> Result<Value, NoMemory> {
        self.copy(alloc)
    }
}

impl Copied for Request {
    fn copied(&self, alloc: Global) -> Result<Request, NoMemory> {
        self.copy(alloc)
    }
}

fn user(alloc: Global, id: &str) -> Result<EntityUid, NoMemory> {
    uid_of(alloc, "User", id)
}

fn policy(alloc: Global, id: &str) -> Result<Name, NoMemory> {
    Ok(Name::Policy(Text::from_str(alloc, id)?))
}

fn entity(alloc: Global, id: &str) -> Result<Name, NoMemory> {
    Ok(Name::Entity(user(alloc, id)?))
}

#[test]
fn copies_names(rt: HostRuntime) -> Result<(), NoMemory> {
    let alloc = rt.alloc();
    is_copied(&rt, alloc, entity(alloc, "alice"))?;
    is_copied(&rt, alloc, policy(alloc, "zebra"))
}

fn text(alloc: Global, content: &str) -> Result<Value, NoMemory> {
    Ok(Value::text(Text::from_str(alloc, content)?))
}

fn put(alloc: Global, fields: &mut Record, name: &str, number: i64) -> Result<(), NoMemory> {
    fields.insert(Text::from_str(alloc, name)?, Value::long(number))
}

// Sets the fields `b` and `a`, where `b` is set twice.
fn put_both(alloc: Global, fields: &mut Record) -> Result<(), NoMemory> {
    put(alloc, fields, "b", 7)?;
    put(alloc, fields, "a", 1)?;
    put(alloc, fields, "b", 2)
}

fn fields(alloc: Global) -> Result<Record, NoMemory> {
    let mut fields = Record::new(alloc);
    let done = put_both(alloc, &mut fields);
    finished(fields, done)
}

fn is_two(value: &Value) -> bool {
    match value.kind() {
        Kind::Long(number) => *number == 2,
        _ => false,
    }
}

fn has_both(record: &Record) -> bool {
    let Some(found) = record.field("b") else {
        return false;
    };
    is_two(found) && record.field("y").is_none() && record.as_map().len() == 2
}

#[test]
fn finds_fields(rt: HostRuntime) -> Result<(), NoMemory> {
    let record = fields(rt.alloc())?;
    let found = has_both(&record);
    holds(&rt, ended(record, found), "fields");
    Ok(())
}

fn decimal(text: &str) -> Result<Value, NoMemory> {
    match Decimal::parse(text) {
        Some(decimal) => Ok(Value::decimal(decimal)),
        None => Err(AllocError),
    }
}

fn address(text: &str) -> Result<Value, NoMemory> {
    match IpNet::parse(text) {
        Some(net) => Ok(Value::ipaddr(net)),
        None => Err(AllocError),
    }
}

fn named(alloc: Global, id: &str) -> Result<Value, NoMemory> {
    Ok(Value::entity(user(alloc, id)?))
}

fn both_truths(alloc: Global) -> Result<Value, NoMemory> {
    Value::set(Vec::from_array(alloc, [Value::boolean(true), Value::boolean(false)])?)
}

// Returns the value at an index below 8 of the ascending values, of which there are two of each kind.
fn first_at(alloc: Global, place: u8) -> Result<Value, NoMemory> {
    match place {
        0 => Ok(Value::boolean(false)),
        1 => Ok(Value::boolean(true)),
        2 => Ok(Value::long(-7)),
        3 => Ok(Value::long(3)),
        4 => text(alloc, ""),
        5 => text(alloc, "a"),
        6 => named(alloc, "alice"),
        _ => named(alloc, "bob"),
    }
}

// Returns the value at an index of the ascending values.
fn value_at(alloc: Global, place: u8) -> Result<Value, NoMemory> {
    match place {
        8 => Value::set(Vec::new(alloc)),
        9 => both_truths(alloc),
        10 => Ok(Value::from_record(Record::new(alloc))),
        11 => Ok(Value::from_record(fields(alloc)?)),
        12 => decimal("-0.1"),
        13 => decimal("1.0"),
        14 => address("255.255.255.255"),
        15 => address("::"),
        _ => first_at(alloc, place),
    }
}

// Returns the value at an index; after a failed allocation tries once more.
fn value_had(alloc: Global, place: u8) -> Result<Value, NoMemory> {
    match value_at(alloc, place) {
        Ok(value) => Ok(value),
        Err(_) => value_at(alloc, place),
    }
}

// Returns the second of two values; fails the test unless it is greater than the first.
fn above<T: Ord + Drop>(rt: &impl Abort, pair: Result<(T, T), NoMemory>) -> Result<T, NoMemory> {
    let (value, next) = pair?;
    holds(rt, value < next && value != next, "they ascend");
    Ok(next)
}

// Fails the test unless a value is less than the next one, and the next one is equal to its copy.
fn is_below_the_next(rt: &impl Abort, alloc: Global, place: u8) -> Result<(), NoMemory> {
    let pair = both(
        value_had(alloc, place),
        value_had(alloc, place.saturating_add(1)),
    );
    is_copied(rt, alloc, above(rt, pair))
}

// In each run of tests/faults/refused_tests.py another allocation fails: then each value is unchanged, and the second
// try copies it.
#[test]
fn values_ascend_and_are_copied_under_refused_memory(rt: HostRuntime) -> Result<(), NoMemory> {
    let alloc = rt.alloc();
    for place in 0..15 {
        is_below_the_next(&rt, alloc, place)?;
    }
    Ok(())
}

fn asked(alloc: Global) -> Result<Request, NoMemory> {
    let pair = both(user(alloc, "alice"), user(alloc, "view"));
    let ((principal, action), resource) = both(pair, user(alloc, "photo"))?;
    Ok(Request {
        principal,
        action,
        resource,
        context: Record::new(alloc),
    })
}

fn request_had(alloc: Global) -> Result<Request, NoMemory> {
    match asked(alloc) {
        Ok(request) => Ok(request),
        Err(_) => asked(alloc),
    }
}

#[test]
fn requests_are_copied_under_refused_memory(rt: HostRuntime) -> Result<(), NoMemory> {
    let alloc = rt.alloc();
    is_copied(&rt, alloc, request_had(alloc))
}
