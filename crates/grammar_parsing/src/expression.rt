//! Parsers of expressions and conditionals. Each agrees with the parser of the same name in specs/ExpressionParsing.

ghost use Rattle.std.specs.Prelude.{◌≡◌, ◌<◌, Err};
ghost use Rattle.grammar_parsing.specs.inner.Reading as spec;
ghost use Rattle.grammar_parsing.specs.Expressions as grammar;
ghost use Rattle.grammar_parsing.specs.Expressions.{is_positive};
ghost use Rattle.grammar_syntax.specs.ParsesTo.{ParsesTo};
ghost use Rattle.grammar_parsing.specs.inner.Nests.{Nests};
ghost use Rattle.grammar_syntax.specs.ParseResults.{ReadsFrontWithin};
ghost use Rattle.grammar_syntax.specs.declared.fault.StopCause.TheVariants as halt;

use crate::primary::Reader;
use grammar_syntax::{Cursor, ExprTree, StopCause, TokenKind};
use plain::{Boxed, pair_with};
use std::alloc::Global;

/// The greatest number of levels of nesting of an expression. The expression itself is on the first level; parentheses
/// (also those of a call, as in `f()`), the brackets of a set, braces and each part of an `if` add one.
pub(crate) const NESTING_LIMIT: usize = 64;

impl<F: Fn(Global, &mut Cursor<'_>, usize) -> Result<ExprTree, StopCause>> Reader<F> {
    /// Parses a word, "then" or "else", and an expression.
    fn branch(&self, tokens: &mut Cursor<'_>, word: TokenKind) -> Result<Boxed<ExprTree>, StopCause>
        requires { Nests self.now.levels (F.pre self.now.expr) (F.post self.now.expr) }
        ensures { ParsesTo (spec.branch (is_positive self.now.levels) (spec.expr self.now.levels)
            word tokens.old.rest.now)
            result tokens.new.rest.now }
    {
        tokens.take(word)?;
        self.boxed_inner(tokens)
    }

    /// Parses the rest of a conditional after its `then` branch.
    #[tactic(auto, unfolding(crate::specs::inner::Reading::decided))]
    fn decided(
        &self,
        tokens: &mut Cursor<'_>,
        test: Boxed<ExprTree>,
        consequent: Boxed<ExprTree>,
    ) -> Result<ExprTree, StopCause>
        requires { Nests self.now.levels (F.pre self.now.expr) (F.post self.now.expr) }
        ensures { ParsesTo (spec.decided (is_positive self.now.levels) (spec.expr self.now.levels)
            test consequent tokens.old.rest.now)
            result tokens.new.rest.now }
    {
        let ((test, consequent), alternative) = pair_with(
            (test, consequent),
            self.branch(tokens, TokenKind::Else),
        )?;
        Ok(ExprTree::If(test, consequent, alternative))
    }

    /// Parses the rest of a conditional after its test.
    #[tactic(auto, unfolding(crate::specs::inner::Reading::conditional_tail))]
    fn conditional_tail(
        &self,
        tokens: &mut Cursor<'_>,
        test: Boxed<ExprTree>,
    ) -> Result<ExprTree, StopCause>
        requires { Nests self.now.levels (F.pre self.now.expr) (F.post self.now.expr) }
        ensures { ParsesTo (spec.conditional_tail (is_positive self.now.levels)
            (spec.expr self.now.levels) test tokens.old.rest.now)
            result tokens.new.rest.now }
    {
        let (test, consequent) = pair_with(test, self.branch(tokens, TokenKind::Then))?;
        self.decided(tokens, test, consequent)
    }

    /// Parses "if" Expr "then" Expr "else" Expr.
    #[tactic(auto, unfolding(crate::specs::inner::Reading::conditional))]
    fn conditional(&self, tokens: &mut Cursor<'_>) -> Result<ExprTree, StopCause>
        requires { Nests self.now.levels (F.pre self.now.expr) (F.post self.now.expr) }
        ensures { ParsesTo (spec.conditional (is_positive self.now.levels)
            (spec.expr self.now.levels) tokens.old.rest.now)
            result tokens.new.rest.now }
    {
        tokens.take(TokenKind::If)?;
        let test = self.boxed_inner(tokens)?;
        self.conditional_tail(tokens, test)
    }

    /// Parses "if" Expr "then" Expr "else" Expr | Or. If no level of nesting is left, a conditional gives the error
    /// `TooDeep`.
    #[tactic(auto, unfolding(crate::specs::inner::Reading::level))]
    fn level(&self, tokens: &mut Cursor<'_>) -> Result<ExprTree, StopCause>
        requires { Nests self.now.levels (F.pre self.now.expr) (F.post self.now.expr) }
        ensures { ParsesTo (spec.level (is_positive self.now.levels) (spec.expr self.now.levels) tokens.old.rest.now)
            result tokens.new.rest.now }
    {
        if !tokens.sees(TokenKind::If) {
            return self.disjunction(tokens);
        }
        if self.levels == 0 {
            return Err(StopCause::TooDeep);
        }
        self.conditional(tokens)
    }
}

/// Parses an expression of at most `levels` levels of nesting, its own included, from the front of the tokens. Parsing
/// is greedy: it goes on as long as the next token can continue an expression.
///
/// The cursor is then after the expression or, on an error other than `NoMemory`, before the token at which parsing
/// stops. After `NoMemory` its position is not specified.
///
/// # Errors
///
/// - `TooDeep`: the next token could occur there only with more levels; or `levels` is 0.
/// - `Unexpected`: the next token cannot occur there, or the tokens end too early.
/// - `NoMemory`: an allocation failed; possible at any point.
pub(crate) fn expr(
    alloc: Global,
    tokens: &mut Cursor<'_>,
    levels: usize,
) -> Result<ExprTree, StopCause>
    ensures reads { 0 < levels → ReadsFrontWithin (grammar.expr levels) grammar.any_expr
        tokens.old.rest.now result tokens.new.rest.now }
    ensures shut { levels ≡ 0 → (result ≡ Err halt.TooDeep) × (tokens.new.rest.now ≡ tokens.old.rest.now) }
    ensures steps { ParsesTo (spec.expr levels tokens.old.rest.now) result tokens.new.rest.now }
{
    if levels == 0 {
        return Err(StopCause::TooDeep);
    }
    Reader {
        alloc,
        levels: levels - 1,
        expr,
    }
    .level(tokens)
}
