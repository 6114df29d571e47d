//! Tests of whether a schema declares a name of a policy.
ghost use Rattle.std.specs.Prelude.{◌≡◌, slice_get, MatchOption};
ghost use Rattle.std.specs.Ordering.{is_lt};
ghost use Rattle.values.specs.Names.{text_cmp};
ghost use Rattle.type_checker.specs.schema.Views.{schema_view};
ghost use Rattle.validator.specs.inner.Walking.{type_at, is_type_of_action, is_declared_action, tested_type_check};
ghost use Rattle.validator.specs.Names.{entity, tested_type};
ghost use Rattle.validator.specs.Unknown.{IsKnown, IsUnknown};
ghost use Rattle.validator.specs.inner.Walking.{other_check, entity_check};

use type_checker::{Schema, TypeFault, is_action_type, stated_schemas_are_well_formed};
use values::{EntityUid, TypeName};

/// Returns whether the name of an action's type is less than `name`, by bytes.
fn is_before(action: &EntityUid, name: &TypeName) -> bool
    ensures { result ≡ is_lt (text_cmp action.now.type_name name.now) }
{
    action.type_name.cmp(name).is_lt()
}

/// Returns whether `actions` has an action at the index `at`, and its type is `name`.
fn has_type_at(actions: &[EntityUid], at: usize, name: &TypeName) -> bool
    ensures { result ≡ type_at name.now (slice_get actions.now at) }
{
    match actions.get(at) {
        Some(action) => action.type_name.as_str() == name.as_str(),
        None => false,
    }
}

/// Returns whether the schema declares an action of the type `name`, by O(log n) comparisons of names, where n is the
/// number of actions.
fn is_type_of_action(schema: &Schema, name: &TypeName) -> bool
    ensures { result ≡ is_type_of_action (schema_view schema.now) name.now }
{
    schema.is_stated();
    stated_schemas_are_well_formed();
    let actions = schema.actions();
    let first = actions.partition_point(|action| is_before(action, name));
    has_type_at(actions, first, name)
}

/// Returns whether an entity is a declared action.
fn is_declared_action(schema: &Schema, uid: &EntityUid) -> bool
    ensures { result ≡ is_declared_action (schema_view schema.now) uid.now }
{
    schema.is_stated();
    stated_schemas_are_well_formed();
    schema.is_action(uid)
}

/// Checks that the type after an `is` is a declared entity type or the type of a declared action; else returns
/// `UnknownType`.
pub(crate) fn check_tested_type(schema: &Schema, name: &TypeName) -> Result<(), TypeFault>
    ensures { result ≡ tested_type_check (schema_view schema.now) name.now }
{
    if let Some(_) = schema.entity_type(name) {
        return Ok(());
    }
    if is_type_of_action(schema, name) {
        return Ok(());
    }
    Err(TypeFault::UnknownType)
}

/// Checks that the type of an entity literal is a declared entity type; else returns `UnknownType`.
fn check_other(schema: &Schema, uid: &EntityUid) -> Result<(), TypeFault>
    ensures { result ≡ other_check (schema_view schema.now) uid.now }
{
    match schema.entity_type(&uid.type_name) {
        Some(_) => Ok(()),
        None => Err(TypeFault::UnknownType),
    }
}

/// Checks that an entity literal of an action type is a declared action (else `UnknownAction`), and that any other
/// entity literal has a declared entity type (else `UnknownType`).
pub(crate) fn check_entity(schema: &Schema, uid: &EntityUid) -> Result<(), TypeFault>
    ensures { result ≡ entity_check (schema_view schema.now) uid.now }
{
    if is_action_type(&uid.type_name) {
        if is_declared_action(schema, uid) {
            return Ok(());
        }
        return Err(TypeFault::UnknownAction);
    }
    check_other(schema, uid)
}

/// Returns the error of an entity literal: `UnknownAction` if its type is an action type and it is not a declared
/// action; `UnknownType` if its type is neither an action type nor declared; else `None`. Does not allocate.
pub fn unknown_entity(schema: &Schema, uid: &EntityUid) -> Option<TypeFault>
    ensures { MatchOption result (IsKnown (schema_view schema.now) (entity uid.now))
        (λ f. IsUnknown (schema_view schema.now) (entity uid.now) f) }
{
    match check_entity(schema, uid) {
        Ok(()) => None,
        Err(fault) => Some(fault),
    }
}

/// Returns `UnknownType` for a type after `is` that is neither a declared entity type nor the type of a declared
/// action; else `None`. Does not allocate.
pub fn unknown_tested_type(schema: &Schema, name: &TypeName) -> Option<TypeFault>
    ensures { MatchOption result (IsKnown (schema_view schema.now) (tested_type name.now))
        (λ f. IsUnknown (schema_view schema.now) (tested_type name.now) f) }
{
    match check_tested_type(schema, name) {
        Ok(()) => None,
        Err(fault) => Some(fault),
    }
}
