//! Relations of the grammar: an operand with at most one tail. `< 2` and `has name` are tails.
ghost use Rattle.std.specs.Prelude.{IfOk};
ghost use Rattle.grammar_syntax.specs.Lang.{Lang};
ghost use Rattle.grammar_syntax.specs.ParsesTo.{ParsesTo};
ghost use Rattle.grammar_syntax.specs.ParserCombinators.{Parser, and_then};
ghost use Rattle.grammar_syntax.specs.Relations.{relation, DerivesFront};
ghost use Rattle.grammar_syntax.specs.declared.tree.ExprTree as trees;

use crate::cursor::Cursor;
use crate::fault::StopCause;
use crate::tree::ExprTree;

/// The parsers of a relation's operand and tail, with the languages that they parse.
pub trait Related {
    /// The condition under which the parsers may be called.
    ghost can_read: { Self → Type 0 };

    /// The language of an operand.
    ghost operands: { Self → Lang trees.ExprTree };

    /// The language of the tail of a given operand. The tail may be empty; its tokens derive the tree of the whole
    /// relation.
    ghost tailed: { Self → trees.ExprTree → Lang trees.ExprTree };

    /// The parsing function of an operand.
    ghost reads_operand: { Self → Parser trees.ExprTree };

    /// The parsing function of the tail of a given operand.
    ghost reads_tail: { Self → trees.ExprTree → Parser trees.ExprTree };

    /// Parses an operand from the front of the tokens.
    fn operand(&self, tokens: &mut Cursor<'_>) -> Result<ExprTree, StopCause>
        requires { can_read self.now }
        ensures derives { IfOk result (λ x. DerivesFront (operands self.now) tokens.old.rest.now x
            tokens.new.rest.now) }
        ensures reads { ParsesTo (reads_operand self.now tokens.old.rest.now) result tokens.new.rest.now };

    /// Parses the tail, which may be empty, of the operand `x`, and returns the relation.
    fn with_tail(&self, tokens: &mut Cursor<'_>, x: ExprTree) -> Result<ExprTree, StopCause>
        requires { can_read self.now }
        ensures derives { IfOk result (λ e. DerivesFront (tailed self.now x) tokens.old.rest.now e
            tokens.new.rest.now) }
        ensures reads { ParsesTo (reads_tail self.now x tokens.old.rest.now) result tokens.new.rest.now };
}

/// Parses a relation, by the parsers in `of`: an operand and at most one tail. `< 2` and `has name` are tails.
///
/// Comparisons do not chain: of `1 < 2 < 3` this function parses `1 < 2`, and no production continues with the second
/// `<`. The first parser that fails gives the error.
///
/// Source: Cedar reference guide 4.0, "Grammar specification for Cedar policy syntax".
pub fn relation<R: Related>(tokens: &mut Cursor<'_>, of: &R) -> Result<ExprTree, StopCause>
    requires { R.can_read of.now }
    ensures derives { IfOk result (λ e. DerivesFront (relation (R.operands of.now) (R.tailed of.now))
        tokens.old.rest.now e tokens.new.rest.now) }
    ensures reads { ParsesTo (and_then (R.reads_operand of.now tokens.old.rest.now) (R.reads_tail of.now)) result
        tokens.new.rest.now }
{
    let x = of.operand(tokens)?;
    of.with_tail(tokens, x)
}
