//! The parts of a policy's scope.
ghost use Rattle.std.specs.Prelude.{◌≡◌, drop, map, length};
ghost use Rattle.fault_places.specs.Places as spec;
ghost use Rattle.fault_places.specs.TokenCounts.{uid_count, each_count};

use crate::leaves::{skip, tokens_after_opened, tokens_after_path, tokens_after_uid};
use grammar_parsing::{ActionTree, PartTree};
use grammar_syntax::{Token, UidTree};

/// Returns the tokens after uids, each with a comma or bracket after it.
pub(crate) fn tokens_after_uids<'t>(uids: &[UidTree], tokens: &'t [Token]) -> &'t [Token]
    ensures { result.now ≡ drop (each_count (map uid_count uids.now)) tokens.entry.now }
{
    let mut rest = tokens;
    for uid in uids {
        rest = skip(tokens_after_uid(uid, rest), 1);
    }
    rest
}

/// Returns the tokens after `part`, the scope's constraint on the principal or the resource; `tokens` begin with it.
pub(crate) fn tokens_after_part<'t>(part: &PartTree, tokens: &'t [Token]) -> &'t [Token]
    ensures { result.now ≡ drop (spec.part_count part.now) tokens.entry.now }
{
    match part {
        PartTree::Any => skip(tokens, 1),
        PartTree::Equal(uid) | PartTree::In(uid) => tokens_after_uid(uid, skip(tokens, 2)),
        PartTree::Is(path) => tokens_after_path(path, skip(tokens, 2)),
        PartTree::IsIn(path, uid) => {
            tokens_after_uid(uid, skip(tokens_after_path(path, skip(tokens, 2)), 1))
        }
    }
}

/// Returns the tokens after `part`, the scope's constraint on the action; `tokens` begin with it.
pub(crate) fn tokens_after_action<'t>(part: &ActionTree, tokens: &'t [Token]) -> &'t [Token]
    ensures { result.now ≡ drop (spec.action_count part.now) tokens.entry.now }
{
    match part {
        ActionTree::Any => skip(tokens, 1),
        ActionTree::Equal(uid) | ActionTree::In(uid) => tokens_after_uid(uid, skip(tokens, 2)),
        ActionTree::InList(uids) => {
            let row = tokens_after_opened(uids.len(), skip(tokens, 3));
            tokens_after_uids(uids.as_slice(), row)
        }
    }
}
