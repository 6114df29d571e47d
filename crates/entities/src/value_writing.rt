//! The canonical JSON of a value, written token by token: no JSON value is built, and no name copied.
ghost use Rattle.std.specs.Prelude.{OnOk, codes};
ghost use Rattle.serde_json.specs.Data.{array, object};
ghost use Rattle.values.specs.extensions.DecimalText.{decimal_text};
ghost use Rattle.values.specs.extensions.NetworkText.{network_text};
ghost use Rattle.values.specs.Values.{boolean, long, text, entity, values_of, fields_of};
ghost use Rattle.entity_uids.specs.Tokens.{AppendsValue};
ghost use Rattle.entities.specs.CanonicalValues.{call_json, value_json, values_json, fields_json};

use entity_uids::write_entity;
use json::Writer;
use plain::NoMemory;
use std::alloc::Global;
use values::{Decimal, IpNet, Kind, Record, Value};

/// Writes a Long as a JSON number.
fn write_integer(out: &mut Writer, integer: i64) -> Result<(), NoMemory>
    ensures { OnOk result (AppendsValue out.old out.new (value_json (long integer))) }
{
    out.i64(integer)
}

/// Writes a call of an extension function.
fn write_call(out: &mut Writer, function: &str, argument: &str) -> Result<(), NoMemory>
    ensures { OnOk result (AppendsValue out.old out.new (call_json function.now argument.now)) }
{
    out.begin_object()?;
    out.key("__extn")?;
    out.begin_object()?;
    out.key("arg")?;
    out.string(argument)?;
    out.key("fn")?;
    out.string(function)?;
    out.end_object()?;
    out.end_object()
}

/// Writes a decimal as a call.
fn write_decimal(alloc: Global, out: &mut Writer, number: &Decimal) -> Result<(), NoMemory>
    ensures { OnOk result (AppendsValue out.old out.new (call_json (codes "decimal") (decimal_text number.now))) }
{
    let mut argument = String::new(alloc);
    number.write_to(&mut argument)?;
    write_call(out, "decimal", argument.as_str())
}

/// Writes an IP address as a call.
fn write_network(alloc: Global, out: &mut Writer, network: &IpNet) -> Result<(), NoMemory>
    ensures { OnOk result (AppendsValue out.old out.new (call_json (codes "ip") (network_text network.now))) }
{
    let mut argument = String::new(alloc);
    network.write_to(&mut argument)?;
    write_call(out, "ip", argument.as_str())
}

/// Writes the canonical JSON of a value.
#[cycle(write)]
fn write_value(alloc: Global, out: &mut Writer, value: &Value) -> Result<(), NoMemory>
    ensures { OnOk result (AppendsValue out.old out.new (value_json value.now)) }
{
    match value.kind() {
        Kind::Boolean(b) => out.boolean(*b),
        Kind::Long(z) => write_integer(out, *z),
        Kind::Text(content) => out.string(content.as_str()),
        Kind::Entity(uid) => write_entity(out, uid),
        Kind::Set(members) => write_items(alloc, out, members.members()),
        Kind::Record(fields) => write_members(alloc, out, fields),
        Kind::Decimal(number) => write_decimal(alloc, out, number),
        Kind::IpAddr(network) => write_network(alloc, out, network),
    }
}

/// Writes the members of a set as an array.
#[cycle(write)]
fn write_items(alloc: Global, out: &mut Writer, members: &[Value]) -> Result<(), NoMemory>
    ensures { OnOk result (AppendsValue out.old out.new (array (values_json (values_of members.now)))) }
{
    out.begin_array()?;
    for member in members {
        write_value(alloc, out, member)?;
    }
    out.end_array()
}

/// Writes the fields of a record as an object.
#[cycle(write)]
fn write_members(alloc: Global, out: &mut Writer, fields: &Record) -> Result<(), NoMemory>
    ensures { OnOk result (AppendsValue out.old out.new (object (fields_json (fields_of fields.now)))) }
{
    out.begin_object()?;
    for (key, value) in fields.as_map().iter() {
        out.key(key.as_str())?;
        write_value(alloc, out, value)?;
    }
    out.end_object()
}

/// Appends the canonical JSON of a record, such as `{"age":1}`.
///
/// # Errors
///
/// - `NoMemory` (1): an allocation failed. The output must then not be used.
pub fn write_record(alloc: Global, out: &mut Writer, fields: &Record) -> Result<(), NoMemory>
    ensures { OnOk result (AppendsValue out.old out.new (object (fields_json (fields_of fields.now)))) }
{
    write_members(alloc, out, fields)
}
