//! Values of the policy language.
ghost use Rattle.std.specs.Prelude.{◌≡◌, Some, IfOk, refl};
ghost use Rattle.std.specs.Ordering.{is_eq};
ghost use Rattle.std.specs.Cmp.{partial_equiv_from_equiv, partial_order_from_agreeing_total};
ghost use Rattle.std.proofs.lemmas.Cmp.{eq_by_cmp_equiv};
ghost use Rattle.values.specs.Sets.{set_list};
ghost use Rattle.values.specs.Values.{PlainValue, boolean, long, text, entity, set, record_of, decimal, ipaddr};
ghost use Rattle.values.specs.Values.{values_of, fields_of};
ghost use Rattle.values.specs.ValueOrder.{value_cmp, value_cmp-IsTotalOrder};
ghost use Rattle.values.specs.ValueView.{of_kind};
ghost use Rattle.values.specs.WellFormed.{IsWellFormed};

use crate::entity_uid::EntityUid;
use crate::record::Record;
use crate::set::Set;
use crate::value_ref::ValueRef;
use extensions::{Decimal, IpNet, NoMemory, Text};
use std::alloc::Global;
use std::cmp::Ordering;
use std::marker::Model;

/// A value of the policy language. Contracts see a value as a `PlainValue`, an algebraic data type: two values are
/// equal if and only if their `PlainValue`s are.
///
/// A value is well formed at every depth, as [`Value::is_well_formed`] describes and proves.
#[cycle(value)]
#[derive(Drop)]
pub struct Value {
    kind: Kind,
}

/// A kind of value, with its content.
#[cycle(value)]
#[derive(Drop)]
pub enum Kind {
    /// True or false.
    Boolean(bool),
    /// A signed 64-bit integer.
    Long(i64),
    /// A string.
    Text(Text),
    /// An entity, by its uid.
    Entity(EntityUid),
    /// A set of values.
    Set(Set),
    /// A record: values by keys.
    Record(Record),
    /// A decimal: a number of ten-thousandths.
    Decimal(Decimal),
    /// An IP address with a prefix.
    IpAddr(IpNet),
}

impl Model for Value {
    ghost use Rattle.values.specs.Values.{PlainValue, height};
    ghost use Rattle.values.specs.ValueCode.{value_code};

    ghost Value = { PlainValue };

    ghost coded = { value_code };

    ghost use Rattle.values.specs.ValueView.{of_kind};

    ghost view = { λ a. of_kind a.kind };

    ghost use Rattle.values.specs.WellFormed.{IsWellFormed};

    ghost invariant = { λ a. IsWellFormed (of_kind a.kind) };

    ghost size = { height };

    ghost use Rattle.values.specs.ValueHeights.{deep_le-height};

    ghost size_decreases = { λ a h. deep_le-height a.kind };
}

impl Value {
    /// Returns a boolean as a value. Does not allocate.
    pub fn boolean(value: bool) -> Value
        ensures { result ≡ boolean value }
    {
        Value {
            kind: Kind::Boolean(value),
        }
    }

    /// Returns an integer as a value. Does not allocate.
    pub fn long(number: i64) -> Value
        ensures { result ≡ long number }
    {
        Value {
            kind: Kind::Long(number),
        }
    }

    /// Returns a string, which is moved, as a value. Does not allocate.
    pub fn text(content: Text) -> Value
        ensures { result ≡ text content }
    {
        Value {
            kind: Kind::Text(content),
        }
    }

    /// Returns an entity, whose uid is moved, as a value. Does not allocate.
    pub fn entity(uid: EntityUid) -> Value
        ensures { result ≡ entity uid }
    {
        Value {
            kind: Kind::Entity(uid),
        }
    }

    /// Returns the set of the values `members`, which may be in any order and repeat, as a value; or `NoMemory`.
    pub fn set(members: Vec<Value>) -> Result<Value, NoMemory>
        ensures { IfOk result (λ v. v ≡ set (values_of (set_list members.items))) }
    {
        Ok(Value::from_set(Set::new(members)?))
    }

    /// Returns a set as a value. Does not allocate.
    pub fn from_set(members: Set) -> Value
        ensures { result ≡ set (values_of members) }
    {
        members.is_well_formed();
        Value {
            kind: Kind::Set(members),
        }
    }

    /// Returns a record as a value. Does not allocate.
    pub fn from_record(fields: Record) -> Value
        ensures { result ≡ record_of (fields_of fields) }
    {
        fields.is_well_formed();
        Value {
            kind: Kind::Record(fields),
        }
    }

    /// Returns a decimal as a value. Does not allocate.
    pub fn decimal(number: Decimal) -> Value
        ensures { result ≡ decimal number }
    {
        Value {
            kind: Kind::Decimal(number),
        }
    }

    /// Returns an IP address with a prefix as a value. Does not allocate.
    pub fn ipaddr(network: IpNet) -> Value
        ensures { result ≡ ipaddr network }
    {
        Value {
            kind: Kind::IpAddr(network),
        }
    }

    /// Proves that the value is well formed at every depth: the members of each set ascend strictly, and so do the keys
    /// of each record. No-op.
    pub fn is_well_formed(&self)
        ensures { IsWellFormed self.now }
    {
        let _kind = &self.kind;
    }

    /// Returns the kind of the value with its content, borrowed. Does not allocate.
    pub fn kind(&self) -> &Kind
        ensures { of_kind result.now ≡ self.now }
    {
        &self.kind
    }

    /// Returns the value as a borrowed value. Does not allocate.
    pub fn as_ref(&self) -> ValueRef<'_>
        ensures { result ≡ self.now }
    {
        ValueRef::of_kind(&self.kind)
    }

    /// Returns a copy of the value, or `NoMemory`.
    #[cycle(copy)]
    pub fn copy(&self, alloc: Global) -> Result<Value, NoMemory>
        ensures { IfOk result (λ v. v ≡ self.now) }
    {
        self.as_ref().copy(alloc)
    }
}

/// Compares two values by kind, and then by content.
#[cycle(compare)]
pub(crate) fn compare(a: &Value, b: &Value) -> Ordering
    ensures { result ≡ value_cmp a.now b.now }
{
    a.as_ref().compare(&b.as_ref())
}

impl PartialEq for Value {
    ghost eq = { λ v w. is_eq (value_cmp v w) };

    ghost laws = { partial_equiv_from_equiv (eq_by_cmp_equiv value_cmp-IsTotalOrder) };

    fn eq(&self, other: &Value) -> bool {
        compare(self, other).is_eq()
    }
}

impl Eq for Value {
    ghost laws = { eq_by_cmp_equiv value_cmp-IsTotalOrder };
}

impl Ord for Value {
    ghost cmp = { value_cmp };

    ghost total = { value_cmp-IsTotalOrder };

    ghost matches_partial_cmp = { λ x y. refl };

    ghost matches_eq = { λ x y. refl };

    fn cmp(&self, other: &Value) -> Ordering {
        compare(self, other)
    }
}

impl PartialOrd for Value {
    ghost partial_cmp = { λ v w. Some (value_cmp v w) };

    ghost laws = { partial_order_from_agreeing_total value_cmp value_cmp-IsTotalOrder (λ x y. refl) (λ x y. refl) };

    fn partial_cmp(&self, other: &Value) -> Option<Ordering> {
        Some(self.cmp(other))
    }
}
