//! The tokens with which a core node or a name of a policy is written.
ghost use Rattle.std.specs.Prelude.{◌≡◌, option_map};
ghost use Rattle.fault_places.specs.Places as spec;
ghost use Rattle.fault_places.specs.Names as names;

use crate::conditions::tokens_after_condition;
use crate::forms::{tokens_at, up_to};
use crate::names::name_in;
use crate::parts::{tokens_after_action, tokens_after_part};
use crate::places::{NodePlace, place_at};
use crate::scopes::{action_name, entity_name};
use grammar_parsing::PolicyTree;
use grammar_syntax::Token;

/// Returns the tokens of the smallest written form that contains the core node at `path` of the expression of the
/// policy `tree`; `None` if there is no such node. `tokens` are all tokens of the policy's text.
///
/// O(length of `tokens` and `path`). Does not allocate.
pub fn written_at<'t>(
    tokens: &'t [Token],
    tree: &'t PolicyTree,
    path: &[usize],
) -> Option<&'t [Token]>
    ensures { option_map (λ ts. ts.now) result ≡ spec.written_at tokens.entry.now tree.entry.now path.now }
{
    match place_at(tokens, tree, path) {
        NodePlace::Policy(policy) => Some(policy),
        NodePlace::Entity(part, from, _) => Some(up_to(from, tokens_after_part(part, from))),
        NodePlace::Action(part, from, _) => Some(up_to(from, tokens_after_action(part, from))),
        NodePlace::Unless(condition, from) => Some(up_to(
            from,
            tokens_after_condition(condition, from),
        )),
        NodePlace::Expression(expression, from, rest) => tokens_at(expression, from, rest),
        NodePlace::Nowhere => None,
    }
}

/// Returns the tokens of the name of the core node at `path` of the expression of the policy `tree`: a uid, or the type
/// after `is`. `None` if the node has no name, even if its operands have.
///
/// O(length of `tokens` and `path`). Does not allocate.
pub fn named_at<'t>(
    tokens: &'t [Token],
    tree: &'t PolicyTree,
    path: &[usize],
) -> Option<&'t [Token]>
    ensures { option_map (λ ts. ts.now) result ≡ names.named_at tokens.entry.now tree.entry.now path.now }
{
    match place_at(tokens, tree, path) {
        NodePlace::Entity(part, from, rest) => entity_name(part, from, rest),
        NodePlace::Action(part, from, rest) => action_name(part, from, rest),
        NodePlace::Expression(expression, from, rest) => name_in(expression, from, rest),
        _ => None,
    }
}
