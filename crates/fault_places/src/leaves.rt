//! The tokens after names and brackets, which contain no expression.
ghost use Rattle.std.specs.Prelude.{◌≡◌, drop};
ghost use Rattle.fault_places.specs.TokenCounts.{path_count, uid_count, lone_count};

use grammar_syntax::{PathTree, Token, UidTree};

/// Returns the tokens after the first `count`; the empty slice if there are no more.
pub(crate) fn skip(tokens: &[Token], count: usize) -> &[Token]
    ensures { result.now ≡ drop count tokens.now }
{
    if count < tokens.len() {
        &tokens[count..]
    } else {
        &[]
    }
}

/// Returns the tokens after the Path `path`, which `tokens` begin with.
pub(crate) fn tokens_after_path<'t>(path: &PathTree, tokens: &'t [Token]) -> &'t [Token]
    ensures { result.now ≡ drop (path_count path.now) tokens.entry.now }
{
    let more = path.more.len();
    skip(skip(skip(tokens, 1), more), more)
}

/// Returns the tokens after `uid`, which `tokens` begin with.
pub(crate) fn tokens_after_uid<'t>(uid: &UidTree, tokens: &'t [Token]) -> &'t [Token]
    ensures { result.now ≡ drop (uid_count uid.now) tokens.entry.now }
{
    skip(tokens_after_path(&uid.path, tokens), 2)
}

/// Returns the tokens after the closing bracket of a list if it has no items (`count` is 0); else all tokens, since the
/// closing bracket counts with the last item.
pub(crate) fn tokens_after_opened(count: usize, tokens: &[Token]) -> &[Token]
    ensures { result.now ≡ drop (lone_count count) tokens.now }
{
    if count == 0 { skip(tokens, 1) } else { tokens }
}
