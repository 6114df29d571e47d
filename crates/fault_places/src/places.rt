//! The place of a core node of a policy's expression.
ghost use Rattle.std.specs.Prelude.{◌≡◌};
ghost use Rattle.fault_places.specs.Places as spec;

use crate::conditions::at_conditions;
use crate::leaves::skip;
use crate::parts::{tokens_after_action, tokens_after_part};
use crate::turns::{Turn, first_turn};
use grammar_parsing::{ActionTree, Condition, PartTree, PolicyTree};
use grammar_syntax::{ExprTree, Token};

/// The place of a core node: the piece of the policy, the tokens that begin with the piece, and the path in the piece.
#[derive(Clone, Copy)]
pub(crate) enum NodePlace<'t, 'p> {
    /// The node joins parts or conditions of the policy.
    Policy(&'t [Token]),
    /// The node is in the scope's constraint on the principal or the resource.
    Entity(&'t PartTree, &'t [Token], &'p [usize]),
    /// The node is in the scope's constraint on the action.
    Action(&'t ActionTree, &'t [Token], &'p [usize]),
    /// The node is the negation of an `unless`.
    Unless(&'t Condition, &'t [Token]),
    /// The node is in the expression of a condition.
    Expression(&'t ExprTree, &'t [Token], &'p [usize]),
    /// There is no such node.
    Nowhere,
}

/// Returns the place at a path of `resource && conditions`; `tokens` begin with the constraint on the resource.
fn from_resource<'t, 'p>(
    policy: &'t [Token],
    tree: &'t PolicyTree,
    tokens: &'t [Token],
    path: &'p [usize],
) -> NodePlace<'t, 'p>
    ensures { spec.place_of result
        ≡ spec.from_resource policy.entry.now tree.entry.now tokens.entry.now path.entry.now }
{
    match first_turn(path) {
        Turn::Stop => NodePlace::Policy(policy),
        Turn::Left(rest) => NodePlace::Entity(&tree.resource, tokens, rest),
        Turn::Right(rest) => {
            let behind = tokens_after_part(&tree.resource, tokens);
            at_conditions(policy, tree.conditions.as_slice(), skip(behind, 1), rest)
        }
        Turn::Off => NodePlace::Nowhere,
    }
}

/// Returns the place at a path of `action && (resource && conditions)`; `tokens` begin with the constraint on the
/// action.
fn from_action<'t, 'p>(
    policy: &'t [Token],
    tree: &'t PolicyTree,
    tokens: &'t [Token],
    path: &'p [usize],
) -> NodePlace<'t, 'p>
    ensures { spec.place_of result
        ≡ spec.from_action policy.entry.now tree.entry.now tokens.entry.now path.entry.now }
{
    match first_turn(path) {
        Turn::Stop => NodePlace::Policy(policy),
        Turn::Left(rest) => NodePlace::Action(&tree.action, tokens, rest),
        Turn::Right(rest) => {
            let behind = tokens_after_action(&tree.action, tokens);
            from_resource(policy, tree, skip(behind, 1), rest)
        }
        Turn::Off => NodePlace::Nowhere,
    }
}

/// Returns the tokens from the one that starts at a byte; an empty slice if no token does.
pub(crate) fn from_byte(tokens: &[Token], at: usize) -> &[Token]
    ensures { result.now ≡ spec.from_byte at tokens.now }
{
    let mut rest = tokens;
    for token in tokens {
        if token.start == at {
            return rest;
        }
        rest = skip(rest, 1);
    }
    rest
}

/// Returns the place at a path of a policy's expression, from all tokens of its text.
pub(crate) fn place_at<'t, 'p>(
    tokens: &'t [Token],
    tree: &'t PolicyTree,
    path: &'p [usize],
) -> NodePlace<'t, 'p>
    ensures { spec.place_of result ≡ spec.place_at tokens.entry.now tree.entry.now path.entry.now }
{
    let policy = from_byte(tokens, tree.effect.start);
    let principal = skip(policy, 2);
    match first_turn(path) {
        Turn::Stop => NodePlace::Policy(policy),
        Turn::Left(rest) => NodePlace::Entity(&tree.principal, principal, rest),
        Turn::Right(rest) => {
            let behind = tokens_after_part(&tree.principal, principal);
            from_action(policy, tree, skip(behind, 1), rest)
        }
        Turn::Off => NodePlace::Nowhere,
    }
}
