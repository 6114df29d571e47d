//! The orders of names, requests and values, as theorems. The functions are no-ops.
ghost use Rattle.std.specs.Prelude.{◌≡◌, ◌↔◌, IsTrue, Contains};
ghost use Rattle.std.specs.Cmp.Lexicographic.{slice_cmp};
ghost use Rattle.std.specs.List.Sorted.{IsStrictlySortedBy};
ghost use Rattle.std.specs.Cmp.{IsTotalOrder};
ghost use Rattle.std.specs.FinMap.{IsAntisymmetric};
ghost use Rattle.values.specs.Names.{text_cmp, uid_cmp, name_cmp, request_cmp};
ghost use Rattle.values.specs.ValueOrder.{value_cmp, field_cmp};

use crate::entity_uid::EntityUid;
use crate::name::Name;
use crate::record::Record;
use crate::request::Request;
use crate::set::Set;
use crate::type_name::TypeName;
use crate::value::Value;

/// Proves that type names are compared by their bytes: `cmp` is that order, which is total, and `cmp` is `Equal` only
/// for equal names; `==` is true if and only if the names are equal. No-op.
pub fn type_names_are_ordered()
    ensures by { (a b : TypeName) → ⟦<TypeName as Ord>⟧.cmp a b ≡ text_cmp a b }
    ensures same { (a b : TypeName) → IsTrue (⟦<TypeName as PartialEq>⟧.eq a b) ↔ (a ≡ b) }
    ensures total { IsTotalOrder text_cmp }
    ensures exact { IsAntisymmetric text_cmp }
{}

/// Proves that entity uids are compared by the type's name, then by the id: `cmp` is that order, which is total, and
/// `cmp` is `Equal` only for equal uids; `==` is true if and only if the uids are equal. No-op.
pub fn entity_uids_are_ordered()
    ensures by { (a b : EntityUid) → ⟦<EntityUid as Ord>⟧.cmp a b ≡ uid_cmp a b }
    ensures same { (a b : EntityUid) → IsTrue (⟦<EntityUid as PartialEq>⟧.eq a b) ↔ (a ≡ b) }
    ensures total { IsTotalOrder uid_cmp }
    ensures exact { IsAntisymmetric uid_cmp }
{}

/// Proves that policies come before entities in the order of names: `cmp` is that order, which is total, and `cmp` is
/// `Equal` only for equal names; `==` is true if and only if the names are equal. No-op.
pub fn names_are_ordered()
    ensures by { (a b : Name) → ⟦<Name as Ord>⟧.cmp a b ≡ name_cmp a b }
    ensures same { (a b : Name) → IsTrue (⟦<Name as PartialEq>⟧.eq a b) ↔ (a ≡ b) }
    ensures total { IsTotalOrder name_cmp }
    ensures exact { IsAntisymmetric name_cmp }
{}

/// Proves that requests are compared by principal, action, resource and context: `cmp` is that order, which is total,
/// and `cmp` is `Equal` only for equal requests; `==` is true if and only if the requests are equal. No-op.
pub fn requests_are_ordered()
    ensures by { (a b : Request) → ⟦<Request as Ord>⟧.cmp a b ≡ request_cmp a b }
    ensures same { (a b : Request) → IsTrue (⟦<Request as PartialEq>⟧.eq a b) ↔ (a ≡ b) }
    ensures total { IsTotalOrder request_cmp }
    ensures exact { IsAntisymmetric request_cmp }
{}

/// Proves that values are compared by kind, then by content: `cmp` is that order, which is total, and `cmp` is `Equal`
/// only for equal values; `==` is true if and only if the values are equal. No-op.
pub fn values_are_ordered()
    ensures by { (a b : Value) → ⟦<Value as Ord>⟧.cmp a b ≡ value_cmp a b }
    ensures same { (a b : Value) → IsTrue (⟦<Value as PartialEq>⟧.eq a b) ↔ (a ≡ b) }
    ensures total { IsTotalOrder value_cmp }
    ensures exact { IsAntisymmetric value_cmp }
{}

/// Proves that sets are compared member by member, as ascending lists, where a prefix comes before a longer list. `==`
/// is true if and only if the sets are equal, and two sets with the same members are equal. No-op.
pub fn sets_are_ordered()
    ensures by { (a b : Set) → ⟦<Set as Ord>⟧.cmp a b ≡ slice_cmp value_cmp a b }
    ensures same { (a b : Set) → IsTrue (⟦<Set as PartialEq>⟧.eq a b) ↔ (a ≡ b) }
    ensures members { (a b : Set) → IsStrictlySortedBy value_cmp a → IsStrictlySortedBy value_cmp b
        → ((v : Value) → Contains a v ↔ Contains b v) → a ≡ b }
{}

/// Proves that records are compared field by field, by key and then by value, as lists that ascend by keys, where a
/// prefix comes before a longer list. `==` is true if and only if the records are equal. No-op.
pub fn records_are_ordered()
    ensures by { (a b : Record) → ⟦<Record as Ord>⟧.cmp a b ≡ slice_cmp field_cmp a b }
    ensures same { (a b : Record) → IsTrue (⟦<Record as PartialEq>⟧.eq a b) ↔ (a ≡ b) }
{}
