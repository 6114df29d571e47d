//! The core expressions of a policy's scope, and the policy's whole expression.
ghost use Rattle.std.specs.Prelude.{◌≡◌, map, IfOk};
ghost use Rattle.grammar_core.specs.declared.leaf.Variable.TheVariants.{Resource};
ghost use Rattle.grammar_core.specs.declared.expr.Expr.TheVariants as form;
ghost use Rattle.type_checker.specs.policy_grammar.PolicyExpression.{entity_literal, is_equal, is_in, entity_part};
ghost use Rattle.type_checker.specs.policy_grammar.PolicyExpression.{action_part};
ghost use Rattle.type_checker.specs.policy_grammar.PolicyExpression.{expression_of};
ghost use Rattle.validator.specs.inner.Checking.{scope_parts};

use grammar_core::{Binary, Expr, Literal, Unary, Variable};
use plain::{Items, NoMemory, Shared, pair_with};
use std::alloc::Global;
use type_checker::{ActionScope, EntityScope, Policy, Scope};
use values::{EntityUid, TypeName};

/// Returns the literal of an entity.
fn entity_literal(uid: &EntityUid) -> Result<Expr, NoMemory>
    ensures { IfOk result (λ x. x ≡ entity_literal uid.now) }
{
    Ok(Expr::Literal(Literal::Entity(uid.copy()?)))
}

/// Returns `variable == uid`.
fn equal_to(alloc: Global, variable: Variable, uid: &EntityUid) -> Result<Expr, NoMemory>
    ensures { IfOk result (λ x. x ≡ is_equal variable uid.now) }
{
    let uid = entity_literal(uid)?;
    Expr::binary(alloc, Binary::Equal, Expr::Variable(variable), uid)
}

/// Returns `variable in uid`.
fn within(alloc: Global, variable: Variable, uid: &EntityUid) -> Result<Expr, NoMemory>
    ensures { IfOk result (λ x. x ≡ is_in variable uid.now) }
{
    let uid = entity_literal(uid)?;
    Expr::binary(alloc, Binary::In, Expr::Variable(variable), uid)
}

/// Returns `variable is name`.
fn of_type(alloc: Global, variable: Variable, name: &TypeName) -> Result<Expr, NoMemory>
    ensures { IfOk result (λ x. x ≡ entity_part variable (EntityScope.Is name.now)) }
{
    let name = name.copy()?;
    Expr::unary(alloc, Unary::Is(name), Expr::Variable(variable))
}

/// Returns `variable is name in uid`, desugared.
fn of_type_within(
    alloc: Global,
    variable: Variable,
    name: &TypeName,
    uid: &EntityUid,
) -> Result<Expr, NoMemory>
    ensures { IfOk result (λ x. x ≡ entity_part variable (EntityScope.IsIn name.now uid.now)) }
{
    let name = name.copy()?;
    let uid = entity_literal(uid)?;
    Expr::is_in(alloc, Expr::Variable(variable), name, uid)
}

/// Returns the expression of the scope's constraint on the principal or on the resource.
fn entity_part(alloc: Global, variable: Variable, scope: &EntityScope) -> Result<Expr, NoMemory>
    ensures { IfOk result (λ x. x ≡ entity_part variable scope.now) }
{
    match scope {
        EntityScope::Any => Ok(Expr::Literal(Literal::Boolean(true))),
        EntityScope::Equal(uid) => equal_to(alloc, variable, uid),
        EntityScope::In(uid) => within(alloc, variable, uid),
        EntityScope::Is(name) => of_type(alloc, variable, name),
        EntityScope::IsIn(name, uid) => of_type_within(alloc, variable, name, uid),
    }
}

/// Returns the literals of the entities, in order.
fn entity_literals(alloc: Global, uids: &[EntityUid]) -> Result<Items<Expr>, NoMemory>
    ensures { IfOk result (λ xs. xs ≡ map entity_literal uids.now) }
{
    let mut literals = Vec::with_capacity(alloc, uids.len())?;
    for uid in uids {
        literals.push(entity_literal(uid)?)?;
    }
    Ok(Items::from_vec(literals))
}

/// Returns `action in` the set of these entities, or `false` if the set is empty.
fn within_list(alloc: Global, uids: &Items<EntityUid>) -> Result<Expr, NoMemory>
    ensures { IfOk result (λ x. x ≡ action_part (ActionScope.InList uids.now)) }
{
    match uids.as_slice() {
        [] => Ok(Expr::Literal(Literal::Boolean(false))),
        listed => {
            let listed = Expr::Set(entity_literals(alloc, listed)?);
            Expr::binary(alloc, Binary::In, Expr::Variable(Variable::Action), listed)
        }
    }
}

/// Returns the expression of the scope's constraint on the action.
fn action_part(alloc: Global, scope: &ActionScope) -> Result<Expr, NoMemory>
    ensures { IfOk result (λ x. x ≡ action_part scope.now) }
{
    match scope {
        ActionScope::Any => Ok(Expr::Literal(Literal::Boolean(true))),
        ActionScope::Equal(uid) => equal_to(alloc, Variable::Action, uid),
        ActionScope::In(uid) => within(alloc, Variable::Action, uid),
        ActionScope::InList(uids) => within_list(alloc, uids),
    }
}

/// Returns the expressions of a policy's scope: principal, action, resource.
pub(crate) fn parts_of(alloc: Global, policy: &Policy) -> Result<Vec<Expr>, NoMemory>
    ensures { IfOk result (λ parts. parts.items ≡ scope_parts policy.now.scope) }
{
    let scope = &*policy.scope;
    let mut parts = Vec::with_capacity(alloc, 3)?;
    parts.push(entity_part(alloc, Variable::Principal, &scope.principal)?)?;
    parts.push(action_part(alloc, &scope.action)?)?;
    parts.push(entity_part(alloc, Variable::Resource, &scope.resource)?)?;
    Ok(parts)
}

/// Returns the conjunction of the scope's constraint on the resource and the conditions.
fn resource_and_condition(
    alloc: Global,
    scope: &Scope,
    condition: &Shared<Expr>,
) -> Result<Expr, NoMemory>
    ensures { IfOk result (λ x. x ≡ form.And (entity_part Resource scope.now.resource) condition.now) }
{
    let resource = entity_part(alloc, Variable::Resource, &scope.resource)?;
    let resource = Shared::new(alloc, resource)?;
    let (resource, condition) = pair_with(resource, condition.share())?;
    Ok(Expr::And(resource, condition))
}

/// Returns the conjunction of the scope's constraint on the action, that on the resource, and the conditions, grouped
/// to the right.
fn behind_principal(
    alloc: Global,
    scope: &Scope,
    condition: &Shared<Expr>,
) -> Result<Expr, NoMemory>
    ensures { IfOk result (λ x. x ≡ form.And (action_part scope.now.action)
        (form.And (entity_part Resource scope.now.resource) condition.now)) }
{
    let rest = resource_and_condition(alloc, scope, condition)?;
    let (rest, action) = pair_with(rest, action_part(alloc, &scope.action))?;
    Expr::and(alloc, action, rest)
}

/// Returns the expression of a policy: the conjunction of its scope's three parts and its conditions, grouped to the
/// right. The conditions are shared with the policy, not copied.
///
/// # Errors
///
/// - `NoMemory`: an allocation failed, or a count of references would overflow.
pub fn expression_of(alloc: Global, policy: &Policy) -> Result<Expr, NoMemory>
    ensures { IfOk result (λ x. x ≡ expression_of policy.now) }
{
    let scope = &*policy.scope;
    let rest = behind_principal(alloc, scope, &policy.condition)?;
    let (rest, principal) = pair_with(
        rest,
        entity_part(alloc, Variable::Principal, &scope.principal),
    )?;
    Expr::and(alloc, principal, rest)
}

/// Drops an expression.
///
/// The function is not generic, so that a crate that calls it does not prove the drop code of expressions again.
pub fn drop_expression(expression: Expr) {
    drop(expression);
}
