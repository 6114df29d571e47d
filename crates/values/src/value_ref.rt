//! Borrowed values, and the order of values.
ghost use Rattle.std.specs.Prelude.{◌≡◌, IfOk};
ghost use Rattle.values.specs.Values.{PlainValue, boolean, long, text, entity, record_of, fields_of};
ghost use Rattle.values.specs.ValueOrder.{value_cmp, kind_rank};
ghost use Rattle.values.specs.ValueView.{of_kind};
ghost use Rattle.values.specs.BorrowedView.{of_borrowed};

use crate::entity_uid::EntityUid;
use crate::record::{Record, compare_fields};
use crate::set::{Set, compare_members};
use crate::value::{Kind, Value};
use extensions::{Decimal, IpNet, NoMemory, Text};
use std::alloc::Global;
use std::cmp::Ordering;
use std::marker::Model;

/// A kind of value with its content, which is borrowed if it owns memory.
///
/// So a string, or the uid of an entity, may be used as a value without a copy. `of_borrowed` gives the value that a
/// `BorrowedKind` represents.
#[derive(Clone, Copy)]
pub enum BorrowedKind<'a> {
    /// True or false.
    Boolean(bool),
    /// A signed 64-bit integer.
    Long(i64),
    /// A string.
    Text(&'a Text),
    /// An entity, by its uid.
    Entity(&'a EntityUid),
    /// A set of values.
    Set(&'a Set),
    /// A record: values by keys.
    Record(&'a Record),
    /// A decimal: a number of ten-thousandths.
    Decimal(Decimal),
    /// An IP address with a prefix.
    IpAddr(IpNet),
}

/// A borrowed value: a whole `Value`, or data that need not be in a `Value`, such as the string of a literal or the uid
/// in a request. Nothing that owns memory is copied. Contracts see the value.
#[derive(Drop)]
pub struct ValueRef<'a> {
    kind: BorrowedKind<'a>,
}

impl<'a> Model for ValueRef<'a> {
    ghost use Rattle.values.specs.Values.{PlainValue};
    ghost use Rattle.values.specs.ValueCode.{value_code};

    ghost Value = { PlainValue };

    ghost coded = { value_code };

    ghost use Rattle.values.specs.BorrowedView.{of_borrowed};

    ghost view = { λ a. of_borrowed a.kind };
}

impl<'a> ValueRef<'a> {
    /// Returns a boolean as a value. Does not allocate.
    pub fn boolean(truth: bool) -> ValueRef<'a>
        ensures { result ≡ boolean truth }
    {
        ValueRef {
            kind: BorrowedKind::Boolean(truth),
        }
    }

    /// Returns an integer as a value. Does not allocate.
    pub fn long(number: i64) -> ValueRef<'a>
        ensures { result ≡ long number }
    {
        ValueRef {
            kind: BorrowedKind::Long(number),
        }
    }

    /// Returns a string as a value. Does not allocate.
    pub fn text(content: &'a Text) -> ValueRef<'a>
        ensures { result ≡ text content.now }
    {
        ValueRef {
            kind: BorrowedKind::Text(content),
        }
    }

    /// Returns an entity, by its uid, as a value. Does not allocate.
    pub fn entity(uid: &'a EntityUid) -> ValueRef<'a>
        ensures { result ≡ entity uid.now }
    {
        ValueRef {
            kind: BorrowedKind::Entity(uid),
        }
    }

    /// Returns a record as a value. Does not allocate.
    pub fn record(fields: &'a Record) -> ValueRef<'a>
        ensures { result ≡ record_of (fields_of fields.now) }
    {
        ValueRef {
            kind: BorrowedKind::Record(fields),
        }
    }

    /// Returns a borrowed value with the kind and content `kind`.
    pub(crate) fn of_kind(kind: &'a Kind) -> ValueRef<'a>
        ensures { result ≡ of_kind kind.now }
    {
        ValueRef {
            kind: match kind {
                Kind::Boolean(truth) => BorrowedKind::Boolean(*truth),
                Kind::Long(number) => BorrowedKind::Long(*number),
                Kind::Text(content) => BorrowedKind::Text(content),
                Kind::Entity(uid) => BorrowedKind::Entity(uid),
                Kind::Set(members) => BorrowedKind::Set(members),
                Kind::Record(fields) => BorrowedKind::Record(fields),
                Kind::Decimal(number) => BorrowedKind::Decimal(*number),
                Kind::IpAddr(network) => BorrowedKind::IpAddr(*network),
            },
        }
    }

    /// Returns the kind of the value, with its content borrowed. Does not allocate.
    pub fn kind(&self) -> BorrowedKind<'a>
        ensures { of_borrowed result ≡ self.now }
    {
        match &self.kind {
            BorrowedKind::Boolean(truth) => BorrowedKind::Boolean(*truth),
            BorrowedKind::Long(number) => BorrowedKind::Long(*number),
            BorrowedKind::Text(content) => BorrowedKind::Text(*content),
            BorrowedKind::Entity(uid) => BorrowedKind::Entity(*uid),
            BorrowedKind::Set(members) => BorrowedKind::Set(*members),
            BorrowedKind::Record(fields) => BorrowedKind::Record(*fields),
            BorrowedKind::Decimal(number) => BorrowedKind::Decimal(*number),
            BorrowedKind::IpAddr(network) => BorrowedKind::IpAddr(*network),
        }
    }

    /// Compares two values in the order of values: by kind, and then by content. Does not allocate.
    #[cycle(compare)]
    pub fn compare(&self, other: &ValueRef<'_>) -> Ordering
        ensures { result ≡ value_cmp self.now other.now }
    {
        match (&self.kind, &other.kind) {
            (BorrowedKind::Boolean(x), BorrowedKind::Boolean(y)) => x.cmp(y),
            (BorrowedKind::Long(x), BorrowedKind::Long(y)) => x.cmp(y),
            (BorrowedKind::Text(x), BorrowedKind::Text(y)) => (*x).cmp(*y),
            (BorrowedKind::Entity(x), BorrowedKind::Entity(y)) => (*x).cmp(*y),
            (BorrowedKind::Set(x), BorrowedKind::Set(y)) => compare_members(*x, *y),
            (BorrowedKind::Record(x), BorrowedKind::Record(y)) => compare_fields(*x, *y),
            (BorrowedKind::Decimal(x), BorrowedKind::Decimal(y)) => x.cmp(y),
            (BorrowedKind::IpAddr(x), BorrowedKind::IpAddr(y)) => x.cmp(y),
            (x, y) => place(x).cmp(&place(y)),
        }
    }

    /// Returns an owned copy of the value, or `NoMemory`.
    #[cycle(copy)]
    pub fn copy(&self, alloc: Global) -> Result<Value, NoMemory>
        ensures { IfOk result (λ v. v ≡ self.now) }
    {
        match &self.kind {
            BorrowedKind::Boolean(truth) => Ok(Value::boolean(*truth)),
            BorrowedKind::Long(number) => Ok(Value::long(*number)),
            BorrowedKind::Text(content) => Ok(Value::text(content.copy()?)),
            BorrowedKind::Entity(uid) => Ok(Value::entity(uid.copy()?)),
            BorrowedKind::Set(members) => Ok(Value::from_set(members.copy(alloc)?)),
            BorrowedKind::Record(fields) => Ok(Value::from_record(fields.copy(alloc)?)),
            BorrowedKind::Decimal(number) => Ok(Value::decimal(*number)),
            BorrowedKind::IpAddr(network) => Ok(Value::ipaddr(*network)),
        }
    }
}

/// Returns the rank of a kind in the order of values.
fn place(kind: &BorrowedKind<'_>) -> u8
    ensures { result ≡ kind_rank (of_borrowed kind.now) }
{
    match kind {
        BorrowedKind::Boolean(_) => 1,
        BorrowedKind::Long(_) => 2,
        BorrowedKind::Text(_) => 3,
        BorrowedKind::Entity(_) => 4,
        BorrowedKind::Set(_) => 5,
        BorrowedKind::Record(_) => 6,
        BorrowedKind::Decimal(_) => 7,
        BorrowedKind::IpAddr(_) => 8,
    }
}
