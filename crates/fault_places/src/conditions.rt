//! Places of core nodes in the conditions of a policy.
ghost use Rattle.std.specs.Prelude.{◌≡◌, drop};
ghost use Rattle.fault_places.specs.Places as spec;

use crate::behind::tokens_after_tree;
use crate::leaves::skip;
use crate::places::NodePlace;
use crate::turns::{Turn, first_turn};
use grammar_parsing::{Condition, ConditionWord};
use grammar_syntax::Token;

/// Returns the tokens after `condition`, which `tokens` begin with.
pub(crate) fn tokens_after_condition<'t>(condition: &Condition, tokens: &'t [Token]) -> &'t [Token]
    ensures { result.now ≡ drop (spec.condition_count condition.now) tokens.entry.now }
{
    skip(tokens_after_tree(&condition.expression, skip(tokens, 2)), 1)
}

/// Returns the place at a path of a condition; `unless { .. }` means a negation.
fn at_condition<'t, 'p>(
    condition: &'t Condition,
    tokens: &'t [Token],
    path: &'p [usize],
) -> NodePlace<'t, 'p>
    ensures { spec.place_of result
        ≡ spec.at_condition condition.entry.now tokens.entry.now path.entry.now }
{
    match condition.word {
        ConditionWord::When => NodePlace::Expression(&condition.expression, skip(tokens, 2), path),
        ConditionWord::Unless => match first_turn(path) {
            Turn::Stop => NodePlace::Unless(condition, tokens),
            Turn::Left(rest) => NodePlace::Expression(&condition.expression, skip(tokens, 2), rest),
            _ => NodePlace::Nowhere,
        },
    }
}

/// Returns the place at a path of the conjunction of the conditions of a policy.
pub(crate) fn at_conditions<'t, 'p>(
    policy: &'t [Token],
    conditions: &'t [Condition],
    tokens: &'t [Token],
    path: &'p [usize],
) -> NodePlace<'t, 'p>
    ensures { spec.place_of result
        ≡ spec.at_conditions policy.entry.now conditions.entry.now tokens.entry.now path.entry.now }
{
    match conditions {
        [] => match first_turn(path) {
            Turn::Stop => NodePlace::Policy(policy),
            _ => NodePlace::Nowhere,
        },
        [only] => at_condition(only, tokens, path),
        [first, others @ ..] => match first_turn(path) {
            Turn::Stop => NodePlace::Policy(policy),
            Turn::Left(rest) => at_condition(first, tokens, rest),
            Turn::Right(rest) => {
                at_conditions(policy, others, tokens_after_condition(first, tokens), rest)
            }
            Turn::Off => NodePlace::Nowhere,
        },
    }
}
