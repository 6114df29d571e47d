//! Sets of values.
ghost use Rattle.std.specs.Prelude.{◌≡◌, ◌↔◌, IsTrue, Contains, List, Some, IfOk, refl};
ghost use Rattle.std.specs.Ordering.{is_eq};
ghost use Rattle.std.specs.Cmp.{partial_equiv_from_equiv, partial_order_from_agreeing_total};
ghost use Rattle.std.proofs.lemmas.Cmp.{eq_by_cmp_equiv};
ghost use Rattle.std.specs.List.{list_any, list_all};
ghost use Rattle.std.specs.List.Sorted.{IsStrictlySortedBy};
ghost use Rattle.values.specs.Sets.{set_list, has_member};
ghost use Rattle.values.specs.Values.{PlainValue, set, values_of};
ghost use Rattle.values.specs.ValueOrder.{value_cmp, set_cmp, set_cmp-IsTotalOrder};
ghost use Rattle.values.specs.WellFormed.{IsWellFormed, AreMembersWellFormed};

use crate::value::{Value, compare};
use extensions::NoMemory;
use std::alloc::Global;
use std::cmp::Ordering;
use std::marker::Model;

/// A finite set of values. Contracts see the list of its members, which ascend strictly.
#[cycle(value)]
#[derive(Drop)]
pub struct Set {
    members: Vec<Value>,
}

impl Model for Set {
    ghost use Rattle.std.specs.Prelude.{List};
    ghost use Rattle.std.specs.Coded.{coded_list};
    ghost use Rattle.std.specs.List.Sorted.{IsStrictlySortedBy};
    ghost use Rattle.values.specs.Values.{PlainValue, heights, values_of};
    ghost use Rattle.values.specs.ValueCode.{value_code};
    ghost use Rattle.values.specs.ValueOrder.{value_cmp};
    ghost use Rattle.values.specs.WellFormed.{AreMembersWellFormed};

    ghost Value = { List PlainValue };

    ghost coded = { coded_list value_code };

    ghost view = { λ a. a.members.items };

    ghost invariant = { λ a. IsStrictlySortedBy value_cmp a.members.items
        × AreMembersWellFormed (values_of a.members.items) };

    ghost size = { λ vs. heights (values_of vs) };

    ghost use Rattle.std.proofs.Common.{arith};
    ghost use Rattle.values.specs.ValueHeights.{most_le-heights};

    ghost size_decreases = { λ a h. omega (arith, most_le-heights a.members.items) };
}

impl Set {
    /// Creates the set of `values`, which may be in any order and repeat, or returns `NoMemory`.
    pub fn new(values: Vec<Value>) -> Result<Set, NoMemory>
        ensures is { IfOk result (λ s. s ≡ set_list values.items) }
        ensures members { IfOk result (λ s. (v : Value) → Contains s v ↔ Contains values.items v) }
        ensures ascending { IfOk result (λ s. IsStrictlySortedBy value_cmp s) }
    {
        all_well_formed(&values);
        let mut members = values;
        members.sort()?;
        members.dedup();
        Ok(Set { members })
    }

    /// Proves that the set is well formed at every depth. No-op.
    pub fn is_well_formed(&self)
        ensures { IsWellFormed (set (values_of self.now)) }
    {
        let _members = &self.members;
    }

    /// Returns the members, which ascend strictly. Does not allocate.
    pub fn members(&self) -> &[Value]
        ensures members { result.now ≡ self.now }
        ensures ascending { IsStrictlySortedBy value_cmp self.now }
    {
        &self.members
    }

    /// Returns a copy of the set, or `NoMemory`.
    #[cycle(copy)]
    pub fn copy(&self, alloc: Global) -> Result<Set, NoMemory>
        ensures { IfOk result (λ s. s ≡ self.now) }
    {
        let mut copies = Vec::with_capacity(alloc, self.members.len())?;
        for member in &self.members {
            copies.push(member.copy(alloc)?)?;
        }
        Ok(Set { members: copies })
    }

    /// Returns whether a value is a member. Compares O(log n) values, where n is the number of members. Does not
    /// allocate.
    pub fn contains(&self, value: &Value) -> bool
        ensures is { result ≡ has_member self.now value.now }
        ensures member { IsTrue result ↔ Contains self.now value.now }
    {
        self.members.binary_search(value).is_ok()
    }

    /// Returns whether each member of the other set is a member of this one. Does not allocate.
    pub fn contains_all(&self, other: &Set) -> bool
        ensures is { result ≡ list_all (has_member self.now) other.now }
        ensures members { IsTrue result ↔ ((v : Value) → Contains other.now v → Contains self.now v) }
    {
        other.members.iter().all(|value| self.contains(value))
    }

    /// Returns whether some member of the other set is a member of this one. Does not allocate.
    pub fn contains_any(&self, other: &Set) -> bool
        ensures is { result ≡ list_any (has_member self.now) other.now }
        ensures member { IsTrue result ↔ ((v : Value) × Contains other.now v × Contains self.now v) }
    {
        other.members.iter().any(|value| self.contains(value))
    }
}

/// Proves that each of `values` is well formed. No-op.
fn all_well_formed(values: &[Value])
    ensures { AreMembersWellFormed (values_of values.now) }
{
    for value in values {
        value.is_well_formed();
    }
}

/// Compares two sets, member by member.
#[cycle(compare)]
pub(crate) fn compare_members(a: &Set, b: &Set) -> Ordering
    ensures { result ≡ set_cmp a.now b.now }
{
    let common = a.members.len().min(b.members.len());
    for i in 0..common {
        let order = compare(&a.members[i], &b.members[i]);
        if order.is_ne() {
            return order;
        }
    }
    a.members.len().cmp(&b.members.len())
}

impl PartialEq for Set {
    ghost eq = { λ a b. is_eq (set_cmp a b) };

    ghost laws = { partial_equiv_from_equiv (eq_by_cmp_equiv set_cmp-IsTotalOrder) };

    fn eq(&self, other: &Set) -> bool {
        self.cmp(other).is_eq()
    }
}

impl Eq for Set {
    ghost laws = { eq_by_cmp_equiv set_cmp-IsTotalOrder };
}

impl Ord for Set {
    ghost cmp = { set_cmp };

    ghost total = { set_cmp-IsTotalOrder };

    ghost matches_partial_cmp = { λ x y. refl };

    ghost matches_eq = { λ x y. refl };

    fn cmp(&self, other: &Set) -> Ordering {
        compare_members(self, other)
    }
}

impl PartialOrd for Set {
    ghost partial_cmp = { λ a b. Some (set_cmp a b) };

    ghost laws = { partial_order_from_agreeing_total set_cmp set_cmp-IsTotalOrder (λ x y. refl) (λ x y. refl) };

    fn partial_cmp(&self, other: &Set) -> Option<Ordering> {
        Some(self.cmp(other))
    }
}
