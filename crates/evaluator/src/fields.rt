//! The fields of records and the attributes of entities.
ghost use Rattle.std.specs.Prelude.{◌≡◌, MatchResult, Ok, Err, option_map};
ghost use Rattle.values.specs.BorrowedView.{of_borrowed};
ghost use Rattle.evaluator.specs.inner.Computing.{decided_entities, Answers, attribute, field_of};
ghost use Rattle.evaluator.specs.inner.Computing.{and_then, has_attribute, has_field, truth, AnswersNumber};
ghost use Rattle.evaluator.specs.Evaluation.{variable_value};

use crate::borrowed_or_owned::{BorrowedOrOwned, Ownership};
use crate::eval_env::EvalEnv;
use crate::fault::EvalFault;
use crate::lookup::Lookup;
use crate::numbers::number_or_none;
use evaluator_steps::attribute_in;
use grammar_core::Variable;
use std::alloc::Global;
use values::{BorrowedKind, EntityUid, Kind, Record, Value};

/// Returns the value of an attribute, borrowed. `fields` are the attributes of the entity, `None` if it is not stored.
fn attribute_at<'a>(fields: Option<&'a Record>, name: &str) -> Result<&'a Value, EvalFault>
    ensures { let expected = attribute (option_map (λ r. r.now) fields.entry) name.now in
        MatchResult result (λ v. expected ≡ Ok v.now) (λ e. expected ≡ Err e) }
{
    let unstored = EvalFault::EntityDoesNotExist;
    match attribute_in(fields, name, unstored, EvalFault::AttrDoesNotExist) {
        Ok(value) => Ok(value),
        Err(fault) => Err(fault),
    }
}

/// Returns the value of an attribute of an entity.
fn attribute<'a, L: Lookup>(
    store: &'a L,
    uid: &EntityUid,
    name: &str,
) -> Result<BorrowedOrOwned<'a>, EvalFault>
    ensures { result ≡ attribute (L.stored store.now uid.now) name.now }
{
    let value = attribute_at(store.attrs_of(uid), name)?;
    Ok(BorrowedOrOwned::borrowed(value))
}

/// Returns the value of a field or an attribute of a variable. Builds no value for the variable: such an access is
/// frequent in conditions.
#[tactic(auto, using(crate::proofs::Variables::field_under))]
pub(crate) fn variable_field<'a, L: EvalEnv>(
    env: &'a L,
    variable: Variable,
    name: &str,
) -> Result<&'a Value, EvalFault>
    ensures { let expected = field_of (decided_entities (L.stored env.now) (L.ancestor_test env.now)) name.now
        (variable_value variable (L.request_of env.now)) in
        MatchResult result (λ v. expected ≡ Ok v.now) (λ e. expected ≡ Err e) }
{
    attribute_at(env.fields_of(variable), name)
}

/// Returns the integer in a field or an attribute of a variable, or `None` if the field or attribute has a value of
/// another kind.
pub(crate) fn variable_number<L: EvalEnv>(
    env: &L,
    variable: Variable,
    name: &str,
) -> Result<Option<i64>, EvalFault>
    ensures { AnswersNumber result (field_of (decided_entities (L.stored env.now) (L.ancestor_test env.now)) name.now
        (variable_value variable (L.request_of env.now))) }
{
    match variable_field(env, variable, name) {
        Ok(value) => Ok(number_or_none(value)),
        Err(fault) => Err(fault),
    }
}

/// Returns whether an entity has an attribute. `fields` are its attributes; an entity that is not stored (`None`) has
/// none.
fn has_attribute(fields: Option<&Record>, name: &str) -> bool
    ensures { result ≡ has_attribute (option_map (λ r. r.now) fields.entry) name.now }
{
    match fields {
        Some(fields) => fields.field(name).is_some(),
        None => false,
    }
}

/// Returns whether a variable has a field or an attribute.
#[tactic(auto, using(crate::proofs::Variables::has_under))]
pub(crate) fn variable_has<L: EvalEnv>(env: &L, variable: Variable, name: &str) -> bool
    ensures { has_field (decided_entities (L.stored env.now) (L.ancestor_test env.now)) name.now
        (variable_value variable (L.request_of env.now)) ≡ truth result }
{
    has_attribute(env.fields_of(variable), name)
}

/// Returns the value of a field or an attribute of a borrowed value.
#[tactic(auto, using(crate::proofs::Conversions::conversions))]
fn field_of_borrowed<'a, L: Lookup>(
    store: &'a L,
    owner: BorrowedKind<'a>,
    name: &str,
) -> Result<BorrowedOrOwned<'a>, EvalFault>
    ensures { result ≡ field_of (decided_entities (L.stored store.now) (L.ancestor_test store.now)) name.now
        (of_borrowed owner.entry) }
{
    match owner {
        BorrowedKind::Record(fields) => match fields.field(name) {
            Some(value) => Ok(BorrowedOrOwned::borrowed(value)),
            None => Err(EvalFault::AttrDoesNotExist),
        },
        BorrowedKind::Entity(uid) => attribute(store, uid, name),
        _ => Err(EvalFault::TypeError),
    }
}

/// Returns the value of a field or an attribute of a computed value.
#[tactic(auto, using(crate::proofs::Conversions::conversions))]
fn field_of_computed<'a, L: Lookup>(
    alloc: Global,
    store: &'a L,
    owner: &Value,
    name: &str,
) -> Result<BorrowedOrOwned<'a>, EvalFault>
    ensures { Answers result
        (field_of (decided_entities (L.stored store.now) (L.ancestor_test store.now)) name.now owner.now) }
{
    match owner.kind() {
        Kind::Record(fields) => match fields.field(name) {
            Some(value) => Ok(BorrowedOrOwned::computed(value.copy(alloc)?)),
            None => Err(EvalFault::AttrDoesNotExist),
        },
        Kind::Entity(uid) => attribute(store, uid, name),
        _ => Err(EvalFault::TypeError),
    }
}

/// Returns the value of a field or an attribute of `owner`.
pub(crate) fn field<'a, L: Lookup>(
    alloc: Global,
    store: &'a L,
    owner: &BorrowedOrOwned<'a>,
    name: &str,
) -> Result<BorrowedOrOwned<'a>, EvalFault>
    ensures { Answers result
        (field_of (decided_entities (L.stored store.now) (L.ancestor_test store.now)) name.now owner.now) }
{
    match &owner.ownership {
        Ownership::Borrowed(value) => field_of_borrowed(store, value.kind(), name),
        Ownership::Owned(value) => field_of_computed(alloc, store, value, name),
    }
}

/// Returns whether a value has a field or an attribute.
#[tactic(auto, using(crate::proofs::Conversions::conversions))]
pub(crate) fn has<L: Lookup>(
    store: &L,
    owner: &BorrowedOrOwned<'_>,
    name: &str,
) -> Result<bool, EvalFault>
    ensures { has_field (decided_entities (L.stored store.now) (L.ancestor_test store.now)) name.now owner.now
        ≡ and_then result truth }
{
    match owner.kind() {
        BorrowedKind::Record(fields) => Ok(fields.field(name).is_some()),
        BorrowedKind::Entity(uid) => Ok(has_attribute(store.attrs_of(uid), name)),
        _ => Err(EvalFault::TypeError),
    }
}
