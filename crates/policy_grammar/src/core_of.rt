//! Translates the syntax tree of a policy that has no errors into the policy.
ghost use Rattle.std.specs.Prelude.{◌≡◌, [], true, IfOk};
ghost use Rattle.std.specs.List.{AllByRecursion};
ghost use Rattle.grammar_parsing.specs.Grammar.{effects};
ghost use Rattle.grammar_parsing.specs.WellFormed.{WellFormedUid, WellFormedPart, WellFormedAction, WellFormedPolicy};
ghost use Rattle.policy_grammar.specs.Conditions.{condition_faults};
ghost use Rattle.policy_grammar.specs.CoreOf.{IsUidOf, AreUidsOf, IsEntityScopeOf, IsActionScopeOf, effect_word};
ghost use Rattle.policy_grammar.specs.CoreOf.{IsCoreOf};
ghost use Rattle.grammar_desugaring.specs.BuiltFrom.{IsBuiltFrom};

use crate::conditions::conditions_like;
use crate::known_names::{action_in, id_like, type_in, type_name_like, uid_in};
use crate::policy::{ActionScope, Effect, EntityScope, Policy, Scope};
use grammar_desugaring::{TokenKind, strings_are_read};
use grammar_parsing::{ActionTree, PartTree, PolicyTree, UidTree};
use plain::{Items, NoMemory, Shared, pair_with};
use std::alloc::Global;
use values::EntityUid;

/// Returns the uid of a tree, or `NoMemory`. The uid shares the string of its type name with `known` if the names are
/// equal and consist of one word. It shares the string of its id if the ids are equal and the id is written without
/// escapes.
fn uid_like(
    alloc: Global,
    text: &str,
    tree: &UidTree,
    known: Option<&EntityUid>,
) -> Result<EntityUid, NoMemory>
    requires { IsBuiltFrom text.now (λ tokens. WellFormedUid tokens tree.now) }
    ensures { IfOk result (IsUidOf text.now tree.now) }
{
    strings_are_read();
    let (known_type, known_id) = match known {
        Some(uid) => (Some(&uid.type_name), Some(&uid.id)),
        None => (None, None),
    };
    let type_name = type_name_like(alloc, text, &tree.path, known_type)?;
    let id = id_like(alloc, text, tree.id, known_id)?;
    Ok(EntityUid { type_name, id })
}

/// Returns the uid of a tree, or `NoMemory`.
pub(crate) fn uid_of(alloc: Global, text: &str, tree: &UidTree) -> Result<EntityUid, NoMemory>
    requires { IsBuiltFrom text.now (λ tokens. WellFormedUid tokens tree.now) }
    ensures { IfOk result (IsUidOf text.now tree.now) }
{
    uid_like(alloc, text, tree, None)
}

/// Returns the uids of some trees, in order, or `NoMemory`.
fn uids_of(alloc: Global, text: &str, trees: &Items<UidTree>) -> Result<Items<EntityUid>, NoMemory>
    requires { IsBuiltFrom text.now (λ tokens. AllByRecursion (WellFormedUid tokens) trees.now) }
    ensures { IfOk result (AreUidsOf text.now trees.now) }
{
    let mut uids = Vec::with_capacity(alloc, trees.len())?;
    for tree in trees.as_slice() {
        let uid = uid_of(alloc, text, tree)?;
        uids.push(uid)?;
    }
    Ok(Items::from_vec(uids))
}

/// Returns the constraint on the principal or the resource, or `NoMemory`. Strings are shared with `known` as
/// `uid_like` describes.
fn entity_scope_of(
    alloc: Global,
    text: &str,
    tree: &PartTree,
    known: Option<&EntityScope>,
) -> Result<EntityScope, NoMemory>
    requires { IsBuiltFrom text.now (λ tokens. WellFormedPart tokens tree.now) }
    ensures { IfOk result (IsEntityScopeOf text.now tree.now) }
{
    match tree {
        PartTree::Any => Ok(EntityScope::Any),
        PartTree::Equal(uid) => {
            let uid = uid_like(alloc, text, uid, uid_in(known))?;
            Ok(EntityScope::Equal(uid))
        }
        PartTree::In(uid) => {
            let uid = uid_like(alloc, text, uid, uid_in(known))?;
            Ok(EntityScope::In(uid))
        }
        PartTree::Is(path) => {
            let name = type_name_like(alloc, text, path, type_in(known))?;
            Ok(EntityScope::Is(name))
        }
        PartTree::IsIn(path, uid) => {
            let name = type_name_like(alloc, text, path, type_in(known))?;
            let uid = uid_like(alloc, text, uid, uid_in(known))?;
            Ok(EntityScope::IsIn(name, uid))
        }
    }
}

/// Returns the constraint on the action, or `NoMemory`. A single uid shares its strings with `known` as `uid_like`
/// describes.
fn action_scope_of(
    alloc: Global,
    text: &str,
    tree: &ActionTree,
    known: Option<&EntityUid>,
) -> Result<ActionScope, NoMemory>
    requires { IsBuiltFrom text.now (λ tokens. WellFormedAction tokens tree.now) }
    ensures { IfOk result (IsActionScopeOf text.now tree.now) }
{
    match tree {
        ActionTree::Any => Ok(ActionScope::Any),
        ActionTree::Equal(uid) => {
            let uid = uid_like(alloc, text, uid, known)?;
            Ok(ActionScope::Equal(uid))
        }
        ActionTree::In(uid) => {
            let uid = uid_like(alloc, text, uid, known)?;
            Ok(ActionScope::In(uid))
        }
        ActionTree::InList(uids) => {
            let uids = uids_of(alloc, text, uids)?;
            Ok(ActionScope::InList(uids))
        }
    }
}

/// Returns the effect that a keyword names.
fn effect_of(kind: TokenKind) -> Effect
    requires { effects kind ≡ true }
    ensures { kind ≡ effect_word result }
{
    match kind {
        TokenKind::Permit => Effect::Permit,
        TokenKind::Forbid => Effect::Forbid,
        _ => unreachable!(),
    }
}

/// Returns the scope of a tree, or `NoMemory`. Each part but a list of actions shares strings with the same part of
/// `known`, as `uid_like` describes.
fn scope_of(
    alloc: Global,
    text: &str,
    tree: &PolicyTree,
    known: Option<&Scope>,
) -> Result<Scope, NoMemory>
    requires { IsBuiltFrom text.now (λ tokens. WellFormedPolicy tokens tree.now) }
    ensures principal { IfOk result (λ scope. IsEntityScopeOf text.now tree.now.principal scope.principal) }
    ensures action { IfOk result (λ scope. IsActionScopeOf text.now tree.now.action scope.action) }
    ensures resource { IfOk result (λ scope. IsEntityScopeOf text.now tree.now.resource scope.resource) }
{
    let (known_principal, known_resource) = match known {
        Some(scope) => (Some(&scope.principal), Some(&scope.resource)),
        None => (None, None),
    };
    let principal = entity_scope_of(alloc, text, &tree.principal, known_principal)?;
    let (principal, action) = pair_with(
        principal,
        action_scope_of(alloc, text, &tree.action, action_in(known)),
    )?;
    let (first, resource) = pair_with(
        (principal, action),
        entity_scope_of(alloc, text, &tree.resource, known_resource),
    )?;
    let (principal, action) = first;
    Ok(Scope {
        principal,
        action,
        resource,
    })
}

/// Returns the policy of a tree, or `NoMemory`. `known` is another policy, such as the previous one. Strings of the
/// policy's scope are shared with the scope of `known` as in `scope_of`. The policy's condition is shared with `known`
/// if `tree` has no conditions and the condition of `known` is `true`.
pub(crate) fn core_like(
    alloc: Global,
    text: &str,
    tree: &PolicyTree,
    known: Option<&Policy>,
) -> Result<Policy, NoMemory>
    requires is_well_formed { IsBuiltFrom text.now (λ tokens. WellFormedPolicy tokens tree.now) }
    requires sound { condition_faults text.now tree.now.conditions ≡ [] }
    ensures { IfOk result (IsCoreOf text.now tree.now) }
{
    let effect = effect_of(tree.effect.kind);
    let (known_scope, known_condition) = match known {
        Some(policy) => (Some(&*policy.scope), Some(&policy.condition)),
        None => (None, None),
    };
    let scope = Shared::new(alloc, scope_of(alloc, text, tree, known_scope)?)?;
    let (scope, condition) = pair_with(
        scope,
        conditions_like(alloc, text, tree.conditions.as_slice(), known_condition),
    )?;
    Ok(Policy {
        effect,
        scope,
        condition,
    })
}
