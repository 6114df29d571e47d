//! Policies: effect, scope and condition.
ghost use Rattle.std.specs.Prelude.{◌≡◌, IfOk};

use grammar_core::Expr;
use plain::{Items, NoMemory, Shared, pair_with};
use values::{EntityUid, TypeName};

/// The effect of a policy on a request that satisfies it.
#[derive(Clone, Copy, PartialEq, Eq)]
pub enum Effect {
    /// The policy permits the request.
    Permit,
    /// The policy forbids the request.
    Forbid,
}

/// A scope's constraint on the principal or on the resource.
#[derive(Drop)]
pub enum EntityScope {
    /// No constraint.
    Any,
    /// The entity is this one.
    Equal(EntityUid),
    /// The entity is this one or a descendant of it.
    In(EntityUid),
    /// The entity has this type.
    Is(TypeName),
    /// The entity has this type, and is the given entity or a descendant of it.
    IsIn(TypeName, EntityUid),
}

/// A scope's constraint on the action.
#[derive(Drop)]
pub enum ActionScope {
    /// No constraint.
    Any,
    /// The action is this one.
    Equal(EntityUid),
    /// The action is this one or a descendant of it.
    In(EntityUid),
    /// The action is one of these or a descendant of one of them. No request satisfies the empty list.
    InList(Items<EntityUid>),
}

/// The scope of a policy: its constraints on principal, action and resource.
#[derive(Drop)]
pub struct Scope {
    pub principal: EntityScope,
    pub action: ActionScope,
    pub resource: EntityScope,
}

/// A policy: its effect, its scope and its condition. Scope and condition are shared, so that an index can have them
/// too without a copy.
#[derive(Drop)]
pub struct Policy {
    pub effect: Effect,
    pub scope: Shared<Scope>,
    /// The policy's `when` and `unless` conditions, joined by `&&` and grouped to the right, where `unless { e }` is
    /// `!e`; `true` if the policy has none.
    pub condition: Shared<Expr>,
}

impl Policy {
    /// Returns an equal policy that shares the scope and the condition of this one. Does not allocate.
    ///
    /// # Errors
    ///
    /// - `NoMemory`: a count of references would exceed 2^64 - 1.
    pub fn share(&self) -> Result<Policy, NoMemory>
        ensures { IfOk result (λ policy. policy ≡ self.now) }
    {
        let scope = self.scope.share()?;
        let (scope, condition) = pair_with(scope, self.condition.share())?;
        Ok(Policy {
            effect: self.effect,
            scope,
            condition,
        })
    }
}
