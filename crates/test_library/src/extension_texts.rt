//! Tests of writing the canonical strings of decimals and addresses when allocations fail.
use crate::shared::{finished, holds};
use extensions::{Decimal, IpNet};
use plain::NoMemory;
use std::alloc::Global;
use std::process::Abort;

// A value with a canonical text.
trait Written: Copy {
    fn write(self, out: &mut String) -> Result<(), NoMemory>;
}

impl Written for Decimal {
    fn write(self, out: &mut String) -> Result<(), NoMemory> {
        self.write_to(out)
    }
}

impl Written for IpNet {
    fn write(self, out: &mut String) -> Result<(), NoMemory> {
        self.write_to(out)
    }
}

// Appends the canonical text. If an allocation fails, fails the test unless the string is unchanged, and tries once
// more.
fn push<T: Written>(rt: &impl Abort, out: &mut String, value: T) -> Result<(), NoMemory> {
    if value.write(out).is_err() {
        holds(rt, out.as_str() == "=", "a refused text stays as it was");
        return value.write(out);
    }
    Ok(())
}

// Returns `=` and the canonical text of a value.
fn shown<T: Written>(rt: &impl Abort, alloc: Global, value: T) -> Result<String, NoMemory> {
    let mut out = String::from_str(alloc, "=")?;
    let done = push(rt, &mut out, value);
    finished(out, done)
}

// Like [`shown`]; after a failed allocation tries once more.
fn shown_at_last<T: Written>(rt: &impl Abort, alloc: Global, value: T) -> Result<String, NoMemory> {
    match shown(rt, alloc, value) {
        Ok(shown) => Ok(shown),
        Err(_) => shown(rt, alloc, value),
    }
}

// Fails the test unless a text is the expected one.
fn is_text(
    rt: &impl Abort,
    shown: Result<String, NoMemory>,
    expected: &str,
) -> Result<(), NoMemory> {
    let shown = shown?;
    holds(rt, shown.as_str() == expected, expected);
    Ok(())
}

// Fails the test unless the parsed value is written as this text.
fn is_shown<T: Written>(
    rt: &impl Abort,
    alloc: Global,
    read: Option<T>,
    expected: &str,
) -> Result<(), NoMemory> {
    match read {
        Some(value) => is_text(rt, shown_at_last(rt, alloc, value), expected),
        None => panic!(rt; "{expected}"),
    }
}

#[test]
fn a_decimal_is_written_under_refused_memory(rt: HostRuntime) -> Result<(), NoMemory> {
    is_shown(&rt, rt.alloc(), Decimal::parse("-0.5"), "=-0.5000")
}

#[test]
fn an_address_is_written_under_refused_memory(rt: HostRuntime) -> Result<(), NoMemory> {
    is_shown(
        &rt,
        rt.alloc(),
        IpNet::parse("abcd::00ff/9"),
        "=abcd:0:0:0:0:0:0:ff/9",
    )
}
