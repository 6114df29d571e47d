//! The check that shapes and contexts are records. `own` is the name of the namespace in which a type is written;
//! `None` is the empty namespace.
ghost use Rattle.std.specs.Prelude.{◌≡◌, ◌∷◌, [], ◌<◌, ◌^◌, OnOk, IfOk, MatchResult, map, option_map, true};
ghost use Rattle.std.specs.Prelude.{false, slice_get};
ghost use Rattle.std.specs.BTreeSet.{btree_set_len};
ghost use Rattle.schema_types.specs.Views.{raw_view};
ghost use Rattle.schema_types.specs.NamesViews.{scope_of};
ghost use Rattle.schema_reading.specs.inner.StatedViews.{common_view, entity_type_view, applies_to_view, action_view};
ghost use Rattle.schema_reading.specs.inner.StatedViews.{namespace_view};
ghost use Rattle.schema_reading.specs.Records.{common_meant, is_no_record, SomeIsNoRecord};
ghost use Rattle.schema_reading.specs.Qualifying.{common_in, commons_declared};
ghost use Rattle.schema_reading.specs.inner.Adding.{has_name, Declares};
ghost use Rattle.schema_reading.specs.inner.Spreading.{is_known_non_record, IsSettled, KeepsNames, AddsNonRecords};
ghost use Rattle.schema_reading.specs.inner.Spreading.{ReportsRecords};
ghost use Rattle.schema_reading.specs.inner.Spreading.{tried_one, tried_in_order};
ghost use Rattle.schema_reading.specs.inner.Uses.{listed_view};
ghost use Rattle.schema_reading.specs.inner.Spreading.{is_record_at, is_record_in, are_shapes, are_contexts};
ghost use Rattle.schema_reading.specs.inner.Spreading.{are_records_of, are_records, MayRefuseRecords};

use crate::declaring::full_text;
use crate::order::{ListedCommon, list_all, order_of};
use crate::stated::{
    StatedAction, StatedAppliesTo, StatedCommon, StatedEntityType, StatedNamespace,
};
use plain::NoMemory;
use schema_types::{Names, RawType, SchemaFault, find, is_other};
use std::alloc::Global;
use std::collections::BTreeSet;
use values::TypeName;

/// Returns the declared common type that a type names, if it names one.
pub(crate) fn find_common(
    alloc: Global,
    names: &Names,
    own: &Option<TypeName>,
    ty: &RawType,
) -> Result<Option<TypeName>, NoMemory>
    ensures { IfOk result (λ o. o ≡ common_meant (scope_of names.now) own.now (raw_view ty.now)) }
{
    match ty {
        RawType::Common(word) => find(alloc, &names.commons, own, word),
        RawType::EntityOrCommon(word) => find(alloc, &names.commons, own, word),
        RawType::Text
        | RawType::Long
        | RawType::Boolean
        | RawType::Decimal
        | RawType::Ipaddr
        | RawType::Set(_)
        | RawType::Record(_)
        | RawType::Entity(_) => Ok(None),
    }
}

/// Returns whether a type that does not name a declared common type is of a form other than a record. For a name that
/// does not resolve, which is another error, the result is `false` unless the form is `Entity`.
fn is_no_record(
    alloc: Global,
    names: &Names,
    own: &Option<TypeName>,
    ty: &RawType,
) -> Result<bool, NoMemory>
    ensures { IfOk result (λ b. b ≡ is_no_record (scope_of names.now) own.now (raw_view ty.now)) }
{
    match ty {
        RawType::Record(_) | RawType::Common(_) => Ok(false),
        RawType::EntityOrCommon(word) => is_other(alloc, names, own, word),
        RawType::Text
        | RawType::Long
        | RawType::Boolean
        | RawType::Decimal
        | RawType::Ipaddr
        | RawType::Set(_)
        | RawType::Entity(_) => Ok(true),
    }
}

/// Returns whether a type is, by `known`, not a record. `known` has the common types that are known not to be records.
fn knows_non_record(
    alloc: Global,
    names: &Names,
    known: &BTreeSet<String>,
    own: &Option<TypeName>,
    ty: &RawType,
) -> Result<bool, NoMemory>
    ensures { IfOk result (λ b. b ≡ is_known_non_record (λ q. has_name known.now q) (scope_of names.now) own.now
        (raw_view ty.now)) }
{
    match find_common(alloc, names, own, ty)? {
        Some(name) => Ok(known.contains(name.as_str())),
        None => is_no_record(alloc, names, own, ty),
    }
}

/// Adds a common type to `known` if, by `known`, it is not a record.
fn add_if_not_record(
    alloc: Global,
    names: &Names,
    own: &Option<TypeName>,
    common: &StatedCommon,
    known: &mut BTreeSet<String>,
) -> Result<(), NoMemory>
    ensures { OnOk result (AddsNonRecords (scope_of names.now)
        (common_in own.now (common_view common.now) ∷ []) known.old known.new) }
{
    if !knows_non_record(alloc, names, known, own, &common.ty)? {
        return Ok(());
    }
    let name = full_text(alloc, own, &common.name)?;
    if known.contains(name.as_str()) {
        return Ok(());
    }
    known.insert(name)?;
    Ok(())
}

/// Adds the common types of a namespace that, by `known`, are not records.
fn add_non_records_of_namespace(
    alloc: Global,
    names: &Names,
    own: &Option<TypeName>,
    commons: &[StatedCommon],
    known: &mut BTreeSet<String>,
) -> Result<(), NoMemory>
    ensures { OnOk result (AddsNonRecords (scope_of names.now) (map (λ c. common_in own.now c)
        (map common_view commons.now)) known.old known.new) }
{
    for common in commons {
        add_if_not_record(alloc, names, own, common, known)?;
    }
    Ok(())
}

/// Adds the common types that, by `known`, are not records.
fn add_non_records(
    alloc: Global,
    names: &Names,
    stated: &[StatedNamespace],
    known: &mut BTreeSet<String>,
) -> Result<(), NoMemory>
    ensures { OnOk result (AddsNonRecords (scope_of names.now)
        (commons_declared (map namespace_view stated.now)) known.old known.new) }
{
    for namespace in stated {
        add_non_records_of_namespace(
            alloc,
            names,
            &namespace.name,
            namespace.commons.as_slice(),
            known,
        )?;
    }
    Ok(())
}

/// Adds the common types that, by `known`, are not records. Returns whether it added any.
fn has_added_non_record(
    alloc: Global,
    names: &Names,
    stated: &[StatedNamespace],
    known: &mut BTreeSet<String>,
) -> Result<bool, NoMemory>
    ensures spreads { OnOk result (AddsNonRecords (scope_of names.now)
        (commons_declared (map namespace_view stated.now)) known.old known.new) }
    ensures grown { IfOk result (λ b. b ≡ true → btree_set_len known.old < btree_set_len known.new) }
    ensures settled { IfOk result (λ b. b ≡ false → IsSettled (scope_of names.now) known.new
        (commons_declared (map namespace_view stated.now))) }
    ensures small { OnOk result (btree_set_len known.new < 2 ^ 63) }
{
    let before = known.len();
    add_non_records(alloc, names, stated, known)?;
    Ok(known.len() != before)
}

/// Adds the common type at an index, if there is one and, by `known`, it is not a record.
fn add_non_record_at(
    alloc: Global,
    names: &Names,
    commons: &[ListedCommon<'_>],
    place: usize,
    known: &mut BTreeSet<String>,
) -> Result<(), NoMemory>
    ensures keeps { OnOk result (KeepsNames (scope_of names.now) (map listed_view commons.now) known.old known.new) }
    ensures tries { OnOk result (AddsNonRecords (scope_of names.now)
        (tried_one (slice_get (map listed_view commons.now) place)) known.old known.new) }
{
    if place < commons.len() {
        let listed = &commons[place];
        add_if_not_record(alloc, names, listed.own, listed.common, known)?;
    }
    Ok(())
}

/// Tests the common types at the indices `order`, one after another, and adds each that, by `known`, is not a record.
fn add_non_records_in_order(
    alloc: Global,
    names: &Names,
    commons: &[ListedCommon<'_>],
    order: &[usize],
    known: &mut BTreeSet<String>,
) -> Result<(), NoMemory>
    ensures keeps { OnOk result (KeepsNames (scope_of names.now) (map listed_view commons.now) known.old known.new) }
    ensures tries { OnOk result (AddsNonRecords (scope_of names.now)
        (tried_in_order (map listed_view commons.now) order.now) known.old known.new) }
{
    for at in order {
        add_non_record_at(alloc, names, commons, *at, known)?;
    }
    Ok(())
}

/// Returns the full names of the common types that are not records.
fn no_records(
    alloc: Global,
    names: &Names,
    stated: &[StatedNamespace],
) -> Result<BTreeSet<String>, NoMemory>
    requires { Declares (map namespace_view stated.now) names.now }
    ensures { IfOk result (λ known. ReportsRecords (map namespace_view stated.now) (λ q. has_name known q)) }
{
    let commons = list_all(alloc, stated)?;
    let order = order_of(alloc, names, commons.as_slice())?;
    let mut known = BTreeSet::new(alloc);
    add_non_records_in_order(
        alloc,
        names,
        commons.as_slice(),
        order.as_slice(),
        &mut known,
    )?;
    while has_added_non_record(alloc, names, stated, &mut known)? {}
    Ok(known)
}

/// Returns `false` if a type is, by `known`, not a record; `true` otherwise, also if there is no type.
fn is_record(
    alloc: Global,
    names: &Names,
    known: &BTreeSet<String>,
    own: &Option<TypeName>,
    ty: &Option<RawType>,
) -> Result<bool, NoMemory>
    ensures { IfOk result (λ b. b ≡ is_record_at (λ q. has_name known.now q) (scope_of names.now) own.now
        (option_map raw_view ty.now)) }
{
    match ty {
        None => Ok(true),
        Some(ty) => Ok(!knows_non_record(alloc, names, known, own, ty)?),
    }
}

/// Returns `false` if the context of an action is, by `known`, not a record; `true` otherwise, also if there is no
/// context.
fn has_record_context(
    alloc: Global,
    names: &Names,
    known: &BTreeSet<String>,
    own: &Option<TypeName>,
    stated: &Option<StatedAppliesTo>,
) -> Result<bool, NoMemory>
    ensures { IfOk result (λ b. b ≡ is_record_in (λ q. has_name known.now q) (scope_of names.now) own.now
        (option_map applies_to_view stated.now)) }
{
    match stated {
        None => Ok(true),
        Some(stated) => is_record(alloc, names, known, own, &stated.context),
    }
}

/// Returns `false` if some shape of the entity types is, by `known`, not a record; `true` otherwise.
fn are_shapes(
    alloc: Global,
    names: &Names,
    known: &BTreeSet<String>,
    own: &Option<TypeName>,
    stated: &[StatedEntityType],
) -> Result<bool, NoMemory>
    ensures { IfOk result (λ b. b ≡ are_shapes (λ q. has_name known.now q) (scope_of names.now) own.now
        (map entity_type_view stated.now)) }
{
    for item in stated {
        let passes = is_record(alloc, names, known, own, &item.shape)?;
        if !passes {
            return Ok(false);
        }
    }
    Ok(true)
}

/// Returns `false` if some context of the actions is, by `known`, not a record; `true` otherwise.
fn are_contexts(
    alloc: Global,
    names: &Names,
    known: &BTreeSet<String>,
    own: &Option<TypeName>,
    stated: &[StatedAction],
) -> Result<bool, NoMemory>
    ensures { IfOk result (λ b. b ≡ are_contexts (λ q. has_name known.now q) (scope_of names.now) own.now
        (map action_view stated.now)) }
{
    for item in stated {
        let passes = has_record_context(alloc, names, known, own, &item.applies_to)?;
        if !passes {
            return Ok(false);
        }
    }
    Ok(true)
}

/// Returns `false` if some shape or context of a namespace is, by `known`, not a record; `true` otherwise.
fn are_records_of(
    alloc: Global,
    names: &Names,
    known: &BTreeSet<String>,
    namespace: &StatedNamespace,
) -> Result<bool, NoMemory>
    ensures { IfOk result (λ b. b ≡ are_records_of (λ q. has_name known.now q) (scope_of names.now)
        (namespace_view namespace.now)) }
{
    let own = &namespace.name;
    if !are_shapes(alloc, names, known, own, namespace.entity_types.as_slice())? {
        return Ok(false);
    }
    are_contexts(alloc, names, known, own, namespace.actions.as_slice())
}

/// Returns `false` if some shape or context of the file is, by `known`, not a record; `true` otherwise.
fn are_records(
    alloc: Global,
    names: &Names,
    known: &BTreeSet<String>,
    stated: &[StatedNamespace],
) -> Result<bool, NoMemory>
    ensures { IfOk result (λ b. b ≡ are_records (λ q. has_name known.now q) (scope_of names.now)
        (map namespace_view stated.now)) }
{
    for item in stated {
        let passes = are_records_of(alloc, names, known, item)?;
        if !passes {
            return Ok(false);
        }
    }
    Ok(true)
}

/// Checks that no shape and no context means a type that is not a record. The errors are `BadShape` (21) and `NoMemory`
/// (1).
pub(crate) fn demand_records(
    alloc: Global,
    names: &Names,
    stated: &[StatedNamespace],
) -> Result<(), SchemaFault>
    requires { Declares (map namespace_view stated.now) names.now }
    ensures { MatchResult result (λ u. SomeIsNoRecord (map namespace_view stated.now) → ⊥) (λ f. MayRefuseRecords
        (map namespace_view stated.now) f) }
{
    let known = no_records(alloc, names, stated)?;
    if !are_records(alloc, names, &known, stated)? {
        return Err(SchemaFault::BadShape);
    }
    Ok(())
}
