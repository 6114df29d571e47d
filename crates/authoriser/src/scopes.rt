//! Tests whether a policy's scope is true of a request.
ghost use Rattle.std.specs.Prelude.{◌↔◌, IsTrue, Contains};
ghost use Rattle.values.specs.declared.entity_uid.EntityUid.{EntityUid};
ghost use Rattle.evaluator.specs.ancestor_search.Hierarchy.{IsAscending, referenced};
ghost use Rattle.scope_index.specs.Scopes.{IsEntityScopeTrue, IsActionScopeTrue};
ghost use Rattle.authoriser.specs.inner.Views.{IsWithin, AreAscending, IsTrueOf};

use crate::request_entities::{KnownEntity, RequestEntities};
use scope_index::{ActionScope, EntityScope, Scope};
use values::EntityUid;

// The greatest number of ancestors that are compared one by one. Such a comparison tests the ids first, which differ
// more often than the types do; a binary search compares the types first. No result depends on this number.
const FEW: usize = 16;

/// Returns whether `of` is one of `entities`.
fn is_one_of(entities: &[&EntityUid], of: &EntityUid) -> bool
    ensures { IsTrue result ↔ Contains (referenced entities.now) of.now }
{
    for entity in entities {
        if entity.same(of) {
            return true;
        }
    }
    false
}

/// Returns whether an entity is `of` or a descendant of it. O(log n) for n ancestors. Does not allocate.
fn is_within(known: &KnownEntity<'_>, of: &EntityUid) -> bool
    requires { IsAscending (referenced known.now.ancestors.items) }
    ensures { IsTrue result ↔ IsWithin known.now of.now }
{
    if known.ancestors.len() <= FEW {
        known.uid.same(of) || is_one_of(&known.ancestors, of)
    } else {
        known.is_within(of)
    }
}

/// Returns whether `scope`, the principal or resource part of a scope, is true of the entity `known`.
fn is_entity_scope_true(scope: &EntityScope, known: &KnownEntity<'_>) -> bool
    requires { IsAscending (referenced known.now.ancestors.items) }
    ensures { IsTrue result ↔ IsEntityScopeTrue (IsWithin known.now) scope.now known.now.uid.now }
{
    match scope {
        EntityScope::Any => true,
        EntityScope::Equal(entity) => known.uid.same(entity),
        EntityScope::In(entity) => is_within(known, entity),
        EntityScope::Is(type_name) => known.uid.type_name.same(type_name),
        EntityScope::IsIn(type_name, entity) => {
            known.uid.type_name.same(type_name) && is_within(known, entity)
        }
    }
}

/// Returns whether `scope`, the action part of a scope, is true of the action `known`.
fn is_action_scope_true(scope: &ActionScope, known: &KnownEntity<'_>) -> bool
    requires { IsAscending (referenced known.now.ancestors.items) }
    ensures { IsTrue result ↔ IsActionScopeTrue (IsWithin known.now) scope.now known.now.uid.now }
{
    match scope {
        ActionScope::Any => true,
        ActionScope::Equal(action) => known.uid.same(action),
        ActionScope::In(action) => is_within(known, action),
        ActionScope::InList(actions) => is_within_any(actions.as_slice(), known),
    }
}

/// Returns whether an entity is one of `entities` or a descendant of one.
fn is_within_any(entities: &[EntityUid], known: &KnownEntity<'_>) -> bool
    requires { IsAscending (referenced known.now.ancestors.items) }
    ensures { IsTrue result ↔ ((entity : EntityUid) × Contains entities.now entity × IsWithin known.now entity) }
{
    for entity in entities {
        if is_within(known, entity) {
            return true;
        }
    }
    false
}

/// Returns whether all three parts of a scope are true. The action is tested first: an index finds a candidate by the
/// principal or the resource that its scope names, and the test of that principal or resource then mostly succeeds.
pub(crate) fn is_scope_true(scope: &Scope, entities: &RequestEntities<'_>) -> bool
    requires { AreAscending entities.now }
    ensures { IsTrue result ↔ IsTrueOf scope.now entities.now }
{
    is_action_scope_true(&scope.action, &entities.action)
        && is_entity_scope_true(&scope.principal, &entities.principal)
        && is_entity_scope_true(&scope.resource, &entities.resource)
}
