//! Repetition of a parser.

ghost use Rattle.std.specs.Prelude.{◌≡◌, [], IfOk};
ghost use Rattle.grammar_syntax.specs.ParsesTo.{ParsesTo};
ghost use Rattle.grammar_syntax.specs.ParserCombinators.{Parser, many};
ghost use Rattle.grammar_syntax.specs.Repetition.{CallsRead, many_onto, many_after};

use crate::cursor::Cursor;
use crate::fault::StopCause;
use crate::kind_sets::KindSet;
use plain::{Items, NoMemory};
use std::alloc::Global;

/// Returns an empty list, with a capacity of one item if `wanted` is true: few lists of pieces have more than one item.
fn empty_list<T>(alloc: Global, wanted: bool) -> Result<Items<T>, NoMemory>
    ensures { IfOk result (λ found. found ≡ []) }
{
    if wanted {
        let room = Vec::with_capacity(alloc, 1)?;
        return Ok(Items::from_vec(room));
    }
    Ok(Items::new(alloc))
}

/// Appends pieces to `found`, each parsed by a call of `read`, as long as a token of the set comes next; returns the
/// first error of a call, or `NoMemory`.
fn read_on<T: Drop, S: KindSet, F: Fn(&mut Cursor<'_>) -> Result<T, StopCause>>(
    mut found: Items<T>,
    tokens: &mut Cursor<'_>,
    set: S,
    read: F,
) -> Result<Items<T>, StopCause>
    requires { F.IsAlwaysCallable read }
    ensures { (p : Parser T) → CallsRead p (F.post read)
        → ParsesTo (many_onto found (S.included set) p tokens.old.rest.now) result tokens.new.rest.now }
{
    for _turn in 0..tokens.left() {
        if !tokens.sees_one_of(set) {
            return Ok(found);
        }
        let next = read(tokens)?;
        found.push(next)?;
    }
    Ok(found)
}

/// Parses pieces as long as a token of the set comes next, each by a call of `read`.
///
/// Returns the first error of such a call, or `NoMemory` if the list cannot grow. Does not allocate if no token of the
/// set comes next.
pub fn read_many<T: Drop, S: KindSet, F: Fn(&mut Cursor<'_>) -> Result<T, StopCause>>(
    alloc: Global,
    tokens: &mut Cursor<'_>,
    set: S,
    read: F,
) -> Result<Items<T>, StopCause>
    requires { F.IsAlwaysCallable read }
    ensures { (p : Parser T) → CallsRead p (F.post read)
        → ParsesTo (many (S.included set) p tokens.old.rest.now) result tokens.new.rest.now }
{
    let none = empty_list(alloc, tokens.sees_one_of(set))?;
    read_on(none, tokens, set, read)
}

/// Parses further pieces after `first` as long as a token of the set comes next, each by a call of `read`.
///
/// Returns the first error of such a call, or `NoMemory` if the list cannot grow.
pub fn read_more<T: Drop, S: KindSet, F: Fn(&mut Cursor<'_>) -> Result<T, StopCause>>(
    alloc: Global,
    tokens: &mut Cursor<'_>,
    first: T,
    set: S,
    read: F,
) -> Result<Items<T>, StopCause>
    requires { F.IsAlwaysCallable read }
    ensures { (p : Parser T) → CallsRead p (F.post read)
        → ParsesTo (many_after first (S.included set) p tokens.old.rest.now) result tokens.new.rest.now }
{
    let mut found = empty_list(alloc, true)?;
    found.push(first)?;
    read_on(found, tokens, set, read)
}
