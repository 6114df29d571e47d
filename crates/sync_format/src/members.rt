//! The writing of members of JSON objects (RFC 8259, section 4), token by token: no JSON value is built, and strings
//! are copied only to the output. The caller writes the brackets around the members.
ghost use Rattle.std.specs.Prelude.{◌≡◌, OnOk, codes};
ghost use Rattle.std.specs.declared.cmp.Ordering.{Ordering};
ghost use Rattle.serde_json.specs.Data.{number, unsigned, string};
ghost use Rattle.values.specs.declared.name.Name.{Name};
ghost use Rattle.values.specs.Names.{name_cmp};
ghost use Rattle.stamped_store.specs.Store.{id_name, policy_name, entity_name};
ghost use Rattle.sync_format.specs.Summaries.{name_json};
ghost use Rattle.entity_uids.specs.Tokens.{AppendsMember};

use entity_uids::write_uid;
use json::Writer;
use plain::{NoMemory, Text};
use std::cmp::Ordering;
use values::{EntityUid, Name};

/// Writes a member of an object, with a string as its value.
///
/// # Errors
///
/// - `NoMemory`: an allocation failed; the partial output must then be discarded.
pub fn write_text(out: &mut Writer, key: &str, text: &str) -> Result<(), NoMemory>
    ensures { OnOk result (AppendsMember out.old out.new key.now (string text.now)) }
{
    out.key(key)?;
    out.string(text)
}

/// Writes a member of an object, with a number in decimal as its value.
///
/// # Errors
///
/// - `NoMemory`: an allocation failed; the partial output must then be discarded.
pub fn write_number(out: &mut Writer, key: &str, value: u64) -> Result<(), NoMemory>
    ensures { OnOk result (AppendsMember out.old out.new key.now (number (unsigned value))) }
{
    out.key(key)?;
    out.u64(value)
}

/// A name borrowed from a store: a policy's id or an entity's uid. It is compared and written like the [`Name`] that it
/// represents, which is not created.
pub trait Lent {
    /// The name that this value represents.
    ghost named: { Self → Name };

    /// Compares `other` with this name: returns `Less` if `other` is less. Does not allocate.
    fn compare(&self, other: &Name) -> Ordering
        ensures { result ≡ name_cmp other.now (named self.now) };

    /// Writes the member `name` of an entry or a stamp.
    ///
    /// # Errors
    ///
    /// - `NoMemory`: an allocation failed; the partial output must then be discarded.
    fn write(&self, out: &mut Writer) -> Result<(), NoMemory>
        ensures { OnOk result (AppendsMember out.old out.new (codes "name") (name_json (named self.now))) };
}

/// Compares a name with that of the policy `id`: returns `Less` if the name is less.
fn compare_with_id(name: &Name, id: &str) -> Ordering
    ensures { result ≡ name_cmp name.now (policy_name id.now) }
{
    match name {
        Name::Policy(other) => other.as_str().cmp(id),
        Name::Entity(_) => Ordering::Greater,
    }
}

/// Writes the member `name` of an entry or a stamp of the policy `id`.
fn write_id(out: &mut Writer, id: &str) -> Result<(), NoMemory>
    ensures { OnOk result (AppendsMember out.old out.new (codes "name") (name_json (policy_name id.now))) }
{
    out.key("name")?;
    out.begin_object()?;
    write_text(out, "policy", id)?;
    out.end_object()
}

impl Lent for String {
    ghost named = { id_name };

    fn compare(&self, other: &Name) -> Ordering {
        compare_with_id(other, self.as_str())
    }

    fn write(&self, out: &mut Writer) -> Result<(), NoMemory> {
        write_id(out, self.as_str())
    }
}

impl Lent for Text {
    ghost named = { policy_name };

    fn compare(&self, other: &Name) -> Ordering {
        compare_with_id(other, self.as_str())
    }

    fn write(&self, out: &mut Writer) -> Result<(), NoMemory> {
        write_id(out, self.as_str())
    }
}

impl Lent for EntityUid {
    ghost named = { entity_name };

    fn compare(&self, other: &Name) -> Ordering {
        match other {
            Name::Policy(_) => Ordering::Less,
            Name::Entity(uid) => uid.cmp(self),
        }
    }

    fn write(&self, out: &mut Writer) -> Result<(), NoMemory> {
        out.key("name")?;
        out.begin_object()?;
        out.key("entity")?;
        write_uid(out, self)?;
        out.end_object()
    }
}
