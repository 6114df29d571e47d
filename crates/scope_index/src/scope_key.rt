//! The key of a policy in the index.
ghost use Rattle.std.specs.Prelude.{◌≡◌, option_map};
ghost use Rattle.scope_index.specs.Keys.{entity_named, index_key};
ghost use Rattle.scope_index.specs.Buckets.{represented_key};

use policy_grammar::{EntityScope, Scope};
use values::EntityUid;

/// The key of a policy, borrowed from its scope. It matches each request of which the scope is true, and possibly
/// others.
#[derive(Clone, Copy)]
pub(crate) enum ScopeKey<'a> {
    /// Matches every request: the scope names an entity neither for the principal nor for the resource.
    Always,
    /// Matches the requests whose principal is this entity or a descendant of it.
    Principal(&'a EntityUid),
    /// Matches the requests whose resource is this entity or a descendant of it.
    Resource(&'a EntityUid),
}

/// Returns the entity that a part of a scope names by `==` or `in`, if it names one.
fn entity_named(part: &EntityScope) -> Option<&EntityUid>
    ensures { option_map (λ u. u.now) result ≡ entity_named part.now }
{
    match part {
        EntityScope::Any => None,
        EntityScope::Equal(entity) => Some(entity),
        EntityScope::In(entity) => Some(entity),
        EntityScope::Is(_) => None,
        EntityScope::IsIn(_, entity) => Some(entity),
    }
}

/// Returns the key of a policy with this scope: by the entity for the principal, else by the entity for the resource,
/// else `Always`.
pub(crate) fn key_of(scope: &Scope) -> ScopeKey<'_>
    ensures { represented_key result ≡ index_key scope.now }
{
    if let Some(entity) = entity_named(&scope.principal) {
        return ScopeKey::Principal(entity);
    }
    if let Some(entity) = entity_named(&scope.resource) {
        return ScopeKey::Resource(entity);
    }
    ScopeKey::Always
}
