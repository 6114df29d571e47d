//! Parsing of one level of operators: an operand, and then pieces as long as the next token is in a set of kinds.

ghost use Rattle.std.specs.Prelude.{◌≡◌, List, IfOk};
ghost use Rattle.grammar_syntax.specs.ParsesTo.{ParsesTo};
ghost use Rattle.grammar_syntax.specs.ParserCombinators.{Parser, many};
ghost use Rattle.grammar_syntax.specs.declared.tree.ExprTree as trees;
ghost use Rattle.grammar_parsing.specs.Expressions.{joined};
ghost use Rattle.grammar_parsing.specs.inner.Chains.{chained};

use grammar_syntax::{Cursor, ExprTree, KindSet, StopCause, read_many};
use plain::{Boxed, Items, pair_with};
use std::alloc::{AllocError, Global};

/// A level of operators. All levels share the functions of this module and their proofs.
pub(crate) trait Level {
    /// A piece: what may follow the first operand, repeatedly.
    type Piece: Drop;

    /// The precondition of `piece`.
    ghost can_read: { Self → Type 0 };

    /// The specification of `piece`: how a piece is parsed.
    ghost pieces: { Self → Parser Self.Piece };

    /// The tree of an operand and the pieces after it.
    ghost joins: { trees.ExprTree → List Self.Piece → trees.ExprTree };

    /// Parses a piece.
    fn piece(&self, tokens: &mut Cursor<'_>) -> Result<Self::Piece, StopCause>
        requires { can_read self.now }
        ensures { ParsesTo (pieces self.now tokens.old.rest.now) result tokens.new.rest.now };

    /// Returns the tree of an operand and the pieces after it.
    fn join(first: Boxed<ExprTree>, more: Items<Self::Piece>) -> ExprTree
        ensures { result ≡ joins first more };
}

/// Parses the pieces after an operand, as long as the next token is in the set.
fn pieces<L: Level, S: KindSet>(
    alloc: Global,
    tokens: &mut Cursor<'_>,
    level: &L,
    set: S,
) -> Result<Items<L::Piece>, StopCause>
    requires { L.can_read level.now }
    ensures { ParsesTo (many (S.included set) (L.pieces level.now) tokens.old.rest.now) result tokens.new.rest.now }
{
    read_many(alloc, tokens, set, |tokens| level.piece(tokens))
}

/// Returns the tree of an operand and the pieces after it; without pieces, the operand itself.
fn join<L: Level>(
    alloc: Global,
    first: ExprTree,
    more: Items<L::Piece>,
) -> Result<ExprTree, AllocError>
    ensures { IfOk result (λ e. e ≡ joined L.joins first more) }
{
    match more.as_slice() {
        [] => Ok(first),
        _ => Ok(L::join(Boxed::new(alloc, first)?, more)),
    }
}

/// Parses the pieces after the operand `first`, as long as the next token is in the set. Returns the tree of the
/// operand and the pieces. If there are no pieces, the usual case, returns `first` itself and makes no list.
pub(crate) fn chain<L: Level, S: KindSet>(
    alloc: Global,
    tokens: &mut Cursor<'_>,
    level: &L,
    set: S,
    first: ExprTree,
) -> Result<ExprTree, StopCause>
    requires { L.can_read level.now }
    ensures { ParsesTo (chained (S.included set) (L.pieces level.now) L.joins first tokens.old.rest.now)
        result tokens.new.rest.now }
{
    if !tokens.sees_one_of(set) {
        return Ok(first);
    }
    let (first, more) = pair_with(first, pieces(alloc, tokens, level, set))?;
    Ok(join::<L>(alloc, first, more)?)
}
