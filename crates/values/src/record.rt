//! Records: values by keys.
ghost use Rattle.std.specs.Prelude.{◌≡◌, List, [], Some, IfOk, OnOk, OnErr, option_map, refl};
ghost use Rattle.std.specs.Ordering.{is_eq};
ghost use Rattle.std.specs.Cmp.{partial_equiv_from_equiv, partial_order_from_agreeing_total};
ghost use Rattle.std.proofs.lemmas.Cmp.{eq_by_cmp_equiv};
ghost use Rattle.values.specs.Fields.{AreKeysAscending, find_field, put};
ghost use Rattle.values.specs.Values.{PlainValue, record_of, fields_of};
ghost use Rattle.values.specs.ValueOrder.{record_cmp, record_cmp-IsTotalOrder};
ghost use Rattle.values.specs.ValueView.{of_entries};
ghost use Rattle.values.specs.WellFormed.{IsWellFormed};

use crate::value::{Value, compare};
use extensions::{NoMemory, Text};
use std::alloc::Global;
use std::cmp::Ordering;
use std::collections::BTreeMap;
use std::marker::Model;

/// A record: values by keys. Contracts see the list of its keys with their values. Keys ascend strictly, by bytes.
#[cycle(value)]
#[derive(Drop)]
pub struct Record {
    fields: BTreeMap<String, Value>,
}

impl Model for Record {
    ghost use Rattle.std.specs.Prelude.{List, ℕ};
    ghost use Rattle.std.specs.Coded.{coded×, coded_list, coded_ℕ};
    ghost use Rattle.values.specs.Values.{PlainValue, field_heights, fields_of};
    ghost use Rattle.values.specs.ValueCode.{value_code};

    ghost Value = { List (List ℕ × PlainValue) };

    ghost coded = { coded_list (coded× (coded_list coded_ℕ) value_code) };

    ghost use Rattle.values.specs.ValueView.{of_entries};

    ghost view = { λ a. of_entries a.fields.entries };

    ghost use Rattle.values.specs.Values.{record_of};
    ghost use Rattle.values.specs.WellFormed.{IsWellFormed};

    ghost invariant = { λ a. IsWellFormed (record_of (fields_of (of_entries a.fields.entries))) };

    ghost size = { λ fs. field_heights (fields_of fs) };

    ghost use Rattle.std.proofs.Common.{arith};
    ghost use Rattle.values.specs.ValueHeights.{most_le-field_heights};

    ghost size_decreases = { λ a h. omega (arith, most_le-field_heights a.fields.entries) };
}

impl Record {
    /// Creates an empty record. Does not allocate.
    pub fn new(alloc: Global) -> Record
        ensures { result ≡ [] }
    {
        Record {
            fields: BTreeMap::new(alloc),
        }
    }

    /// Sets the field `key` to `value`, and drops the value that the field had, if any. After `NoMemory` the record is
    /// unchanged.
    pub fn insert(&mut self, key: Text, value: Value) -> Result<(), NoMemory>
        ensures ok { OnOk result (self.new ≡ put key value self.old) }
        ensures err { OnErr result (self.new ≡ self.old) }
    {
        value.is_well_formed();
        drop(self.fields.insert(key.into_string(), value)?);
        Ok(())
    }

    /// Returns the value of a field, or `None` if there is no such field. Does not allocate.
    pub fn field(&self, key: &str) -> Option<&Value>
        ensures { option_map (λ v. v.now) result ≡ find_field key.now self.now }
    {
        self.fields.get(key)
    }

    /// Proves that the record is well formed at every depth. No-op.
    pub fn is_well_formed(&self)
        ensures { IsWellFormed (record_of (fields_of self.now)) }
    {
        let _fields = &self.fields;
    }

    /// Returns the fields, whose keys ascend by their bytes. Does not allocate.
    pub fn as_map(&self) -> &BTreeMap<String, Value>
        ensures is { of_entries result.now.entries ≡ self.now }
        ensures ascending { AreKeysAscending self.now }
    {
        let _ordered = self.fields.len();
        &self.fields
    }

    /// Returns a copy of the record, or `NoMemory`.
    #[cycle(copy)]
    pub fn copy(&self, alloc: Global) -> Result<Record, NoMemory>
        ensures { IfOk result (λ r. r ≡ self.now) }
    {
        let mut copies = BTreeMap::new(alloc);
        for (key, value) in self.fields.iter() {
            let name = key.clone()?;
            drop(copies.insert(name, value.copy(alloc)?)?);
        }
        Ok(Record { fields: copies })
    }
}

/// Compares two records, field by field: by key, then by value.
#[cycle(compare)]
pub(crate) fn compare_fields(a: &Record, b: &Record) -> Ordering
    ensures { result ≡ record_cmp a.now b.now }
{
    let mut others = b.fields.iter();
    for (key, value) in a.fields.iter() {
        match others.next() {
            None => return Ordering::Greater,
            Some((other_key, other_value)) => {
                let keys = key.cmp(other_key);
                if keys.is_ne() {
                    return keys;
                }
                let order = compare(value, other_value);
                if order.is_ne() {
                    return order;
                }
            }
        }
    }
    if others.next().is_none() {
        Ordering::Equal
    } else {
        Ordering::Less
    }
}

impl PartialEq for Record {
    ghost eq = { λ a b. is_eq (record_cmp a b) };

    ghost laws = { partial_equiv_from_equiv (eq_by_cmp_equiv record_cmp-IsTotalOrder) };

    fn eq(&self, other: &Record) -> bool {
        self.cmp(other).is_eq()
    }
}

impl Eq for Record {
    ghost laws = { eq_by_cmp_equiv record_cmp-IsTotalOrder };
}

impl Ord for Record {
    ghost cmp = { record_cmp };

    ghost total = { record_cmp-IsTotalOrder };

    ghost matches_partial_cmp = { λ x y. refl };

    ghost matches_eq = { λ x y. refl };

    fn cmp(&self, other: &Record) -> Ordering {
        compare_fields(self, other)
    }
}

impl PartialOrd for Record {
    ghost partial_cmp = { λ a b. Some (record_cmp a b) };

    ghost laws = { partial_order_from_agreeing_total record_cmp record_cmp-IsTotalOrder (λ x y. refl) (λ x y. refl) };

    fn partial_cmp(&self, other: &Record) -> Option<Ordering> {
        Some(self.cmp(other))
    }
}
