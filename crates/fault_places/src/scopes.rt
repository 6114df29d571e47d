//! The tokens of the names in a policy's scope.
ghost use Rattle.std.specs.Prelude.{◌≡◌, Some, option_map};
ghost use Rattle.fault_places.specs.Names as spec;
ghost use Rattle.fault_places.specs.Places.{turn};

use crate::forms::{front, item_at};
use crate::leaves::{skip, tokens_after_path};
use crate::names::{path_tokens, uid_tokens};
use crate::parts::tokens_after_uids;
use crate::turns::{Turn, first_turn};
use grammar_parsing::{ActionTree, PartTree};
use grammar_syntax::{Token, UidTree};

/// Returns `name` if `path` is empty, else `None`.
fn at_end<'t>(path: &[usize], name: Option<&'t [Token]>) -> Option<&'t [Token]>
    ensures { option_map (λ ts. ts.now) result
        ≡ spec.at_end (turn path.now) (option_map (λ ts. ts.now) name.entry) }
{
    match first_turn(path) {
        Turn::Stop => name,
        _ => None,
    }
}

/// Returns the tokens of `uid`, which `tokens` begin with, if `path` leads to the second operand and ends there, else
/// `None`.
fn second_uid<'t>(path: &[usize], uid: &UidTree, tokens: &'t [Token]) -> Option<&'t [Token]>
    ensures { option_map (λ ts. ts.now) result
        ≡ spec.at_second (turn path.now) (Some (spec.uid_tokens uid.now tokens.entry.now)) }
{
    match first_turn(path) {
        Turn::Right(rest) => at_end(rest, Some(uid_tokens(uid, tokens))),
        _ => None,
    }
}

/// Returns the tokens of the name at a path of `part`, the scope's constraint on the principal or the resource.
///
/// `tokens` begin with the constraint. A uid or a type comes after two tokens, as `principal ==`. The test
/// `x is T in uid` means `x is T && x in uid`; one token, `in`, is between the type and the uid.
pub(crate) fn entity_name<'t>(
    part: &PartTree,
    tokens: &'t [Token],
    path: &[usize],
) -> Option<&'t [Token]>
    ensures { option_map (λ ts. ts.now) result ≡ spec.entity_name part.now tokens.entry.now path.now }
{
    match part {
        PartTree::Any => None,
        PartTree::Equal(uid) | PartTree::In(uid) => second_uid(path, uid, skip(tokens, 2)),
        PartTree::Is(name) => at_end(path, Some(path_tokens(name, skip(tokens, 2)))),
        PartTree::IsIn(name, uid) => {
            let from = skip(tokens, 2);
            match first_turn(path) {
                Turn::Left(rest) => at_end(rest, Some(path_tokens(name, from))),
                Turn::Right(rest) => {
                    let behind = skip(tokens_after_path(name, from), 1);
                    second_uid(rest, uid, behind)
                }
                _ => None,
            }
        }
    }
}

/// Returns the tokens of the uid that a path leads to from the list `uids`, if there is one. `tokens` begin after the
/// list's `[`.
fn item_name<'t>(uids: &[UidTree], tokens: &'t [Token], path: &[usize]) -> Option<&'t [Token]>
    ensures { option_map (λ ts. ts.now) result ≡ spec.item_name uids.now tokens.entry.now path.now }
{
    match path {
        [] => None,
        [index, rest @ ..] => match item_at(uids, *index) {
            Some(uid) => {
                let behind = tokens_after_uids(front(uids, *index), tokens);
                at_end(rest, Some(uid_tokens(uid, behind)))
            }
            None => None,
        },
    }
}

/// Returns the tokens of the name at a path of `part`, the scope's constraint on the action.
///
/// `tokens` begin with the constraint. A uid comes after two tokens, as `action ==`, and a list's uids after three,
/// `action in [`.
pub(crate) fn action_name<'t>(
    part: &ActionTree,
    tokens: &'t [Token],
    path: &[usize],
) -> Option<&'t [Token]>
    ensures { option_map (λ ts. ts.now) result ≡ spec.action_name part.now tokens.entry.now path.now }
{
    match part {
        ActionTree::Any => None,
        ActionTree::Equal(uid) | ActionTree::In(uid) => second_uid(path, uid, skip(tokens, 2)),
        ActionTree::InList(uids) => match first_turn(path) {
            Turn::Right(rest) => item_name(uids.as_slice(), skip(tokens, 3), rest),
            _ => None,
        },
    }
}
