//! Parsers of relations. The tail that follows a Sum is parsed by itself, and then joined to the Sum.

ghost use Rattle.std.specs.Prelude.{◌≡◌, IfOk};
ghost use Rattle.grammar_parsing.specs.inner.Reading as spec;
ghost use Rattle.grammar_parsing.specs.Expressions.{is_positive};
ghost use Rattle.grammar_syntax.specs.ParsesTo.{ParsesTo};
ghost use Rattle.grammar_parsing.specs.inner.Nests.{Nests};
ghost use Rattle.grammar_parsing.specs.inner.Tails as tails;

use crate::primary::{Reader, key};
use crate::symbols::take_symbol;
use crate::token_sets::TokenSet;
use grammar_syntax::{
    Comparison, Cursor, ExprTree, KeyTree, PathTree, StopCause, Token, TokenKind, path,
};
use plain::{Boxed, pair_with};
use std::alloc::{AllocError, Global};

/// The tail of a relation: what may follow its first Sum.
#[derive(Drop)]
pub(crate) enum Tail {
    /// A comparison, and the other operand.
    Compared(Comparison, Boxed<ExprTree>),
    /// `has`, and the name of the attribute.
    Has(KeyTree),
    /// `like`, and the pattern.
    Like(Token),
    /// `is`, the type, and the operand of `in` if there is one.
    Is(PathTree, Option<Boxed<ExprTree>>),
}

/// Parses "has" (Ident | String).
#[tactic(auto, unfolding(crate::specs::inner::Tails::has))]
fn has(tokens: &mut Cursor<'_>) -> Result<Option<Tail>, StopCause>
    ensures { ParsesTo (tails.has tokens.old.rest.now) result tokens.new.rest.now }
{
    tokens.take(TokenKind::Has)?;
    let name = key(tokens)?;
    Ok(Some(Tail::Has(name)))
}

/// Parses "like" Pattern.
#[tactic(auto, unfolding(crate::specs::inner::Tails::like))]
fn like(tokens: &mut Cursor<'_>) -> Result<Option<Tail>, StopCause>
    ensures { ParsesTo (tails.like tokens.old.rest.now) result tokens.new.rest.now }
{
    tokens.take(TokenKind::Like)?;
    let text = tokens.take_one_of(TokenSet::Patterns)?;
    Ok(Some(Tail::Like(text)))
}

/// Returns the relation of an operand and a tail.
fn form(x: Boxed<ExprTree>, tail: Tail) -> ExprTree
    ensures { result ≡ tails.form x tail }
{
    match tail {
        Tail::Compared(operator, y) => ExprTree::Compare(x, operator, y),
        Tail::Has(name) => ExprTree::Has(x, name),
        Tail::Like(text) => ExprTree::Like(x, text),
        Tail::Is(type_name, entity) => match entity {
            None => ExprTree::Is(x, type_name),
            Some(entity) => ExprTree::IsIn(x, type_name, entity),
        },
    }
}

/// Returns the relation of an operand and a tail, or the operand itself if there is no tail.
fn relate(alloc: Global, x: ExprTree, tail: Option<Tail>) -> Result<ExprTree, AllocError>
    ensures { IfOk result (λ e. e ≡ tails.relate x tail) }
{
    match tail {
        None => Ok(x),
        Some(tail) => {
            let (tail, x) = pair_with(tail, Boxed::new(alloc, x))?;
            Ok(form(x, tail))
        }
    }
}

impl<F: Fn(Global, &mut Cursor<'_>, usize) -> Result<ExprTree, StopCause>> Reader<F> {
    /// Parses a Sum, into a box.
    fn boxed_sum(&self, tokens: &mut Cursor<'_>) -> Result<Boxed<ExprTree>, StopCause>
        requires { Nests self.now.levels (F.pre self.now.expr) (F.post self.now.expr) }
        ensures { ParsesTo (spec.sum (is_positive self.now.levels) (spec.expr self.now.levels) tokens.old.rest.now)
            result tokens.new.rest.now }
    {
        let x = self.sum(tokens)?;
        Ok(Boxed::new(self.alloc, x)?)
    }

    /// Parses ("<" | "<=" | ">" | ">=" | "==" | "!=" | "in") Sum.
    #[tactic(auto, unfolding(crate::specs::inner::Tails::compared))]
    fn compared(&self, tokens: &mut Cursor<'_>) -> Result<Option<Tail>, StopCause>
        requires { Nests self.now.levels (F.pre self.now.expr) (F.post self.now.expr) }
        ensures { ParsesTo (tails.compared (is_positive self.now.levels)
            (spec.expr self.now.levels) tokens.old.rest.now)
            result tokens.new.rest.now }
    {
        let operator = take_symbol::<Comparison>(tokens)?;
        let y = self.boxed_sum(tokens)?;
        Ok(Some(Tail::Compared(operator, y)))
    }

    /// Parses "in" Sum if "in" comes next, else returns `None`.
    #[tactic(auto, unfolding(crate::specs::inner::Reading::maybe_inside, crate::specs::inner::Reading::inside))]
    fn maybe_inside(&self, tokens: &mut Cursor<'_>) -> Result<Option<Boxed<ExprTree>>, StopCause>
        requires { Nests self.now.levels (F.pre self.now.expr) (F.post self.now.expr) }
        ensures { ParsesTo (spec.maybe_inside (is_positive self.now.levels)
            (spec.expr self.now.levels) tokens.old.rest.now)
            result tokens.new.rest.now }
    {
        if !tokens.sees(TokenKind::In) {
            return Ok(None);
        }
        tokens.take(TokenKind::In)?;
        let entity = self.boxed_sum(tokens)?;
        Ok(Some(entity))
    }

    /// Parses "is" Path [ "in" Sum ].
    #[tactic(auto, unfolding(crate::specs::inner::Tails::type_test))]
    fn type_test(&self, tokens: &mut Cursor<'_>) -> Result<Option<Tail>, StopCause>
        requires { Nests self.now.levels (F.pre self.now.expr) (F.post self.now.expr) }
        ensures { ParsesTo (tails.type_test (is_positive self.now.levels)
            (spec.expr self.now.levels) tokens.old.rest.now) result tokens.new.rest.now }
    {
        tokens.take(TokenKind::Is)?;
        let type_name = path(self.alloc, tokens)?;
        let (type_name, entity) = pair_with(type_name, self.maybe_inside(tokens))?;
        Ok(Some(Tail::Is(type_name, entity)))
    }

    /// Parses [ "has" (Ident | String) | "like" Pattern | "is" Path [ "in" Sum ] ].
    #[tactic(auto, unfolding(crate::specs::inner::Tails::test_tail))]
    fn test_tail(&self, tokens: &mut Cursor<'_>) -> Result<Option<Tail>, StopCause>
        requires { Nests self.now.levels (F.pre self.now.expr) (F.post self.now.expr) }
        ensures { ParsesTo (tails.test_tail (is_positive self.now.levels)
            (spec.expr self.now.levels) tokens.old.rest.now)
            result tokens.new.rest.now }
    {
        if tokens.sees(TokenKind::Has) {
            return has(tokens);
        }
        if tokens.sees(TokenKind::Like) {
            return like(tokens);
        }
        if tokens.sees(TokenKind::Is) {
            return self.type_test(tokens);
        }
        Ok(None)
    }

    /// Parses [ comparison Sum | "has" (Ident | String) | "like" Pattern | "is" Path [ "in" Sum ] ].
    #[tactic(auto, unfolding(crate::specs::inner::Tails::tail))]
    fn tail(&self, tokens: &mut Cursor<'_>) -> Result<Option<Tail>, StopCause>
        requires { Nests self.now.levels (F.pre self.now.expr) (F.post self.now.expr) }
        ensures { ParsesTo (tails.tail (is_positive self.now.levels) (spec.expr self.now.levels) tokens.old.rest.now)
            result tokens.new.rest.now }
    {
        if tokens.sees_one_of(TokenSet::Comparisons) {
            return self.compared(tokens);
        }
        self.test_tail(tokens)
    }

    /// Parses a tail after the Sum `x`, and returns the relation of both; without a tail it returns `x`.
    #[tactic(auto, unfolding(crate::specs::inner::Tails::joined))]
    fn join_tail(&self, tokens: &mut Cursor<'_>, x: ExprTree) -> Result<ExprTree, StopCause>
        requires { Nests self.now.levels (F.pre self.now.expr) (F.post self.now.expr) }
        ensures { ParsesTo (tails.joined (is_positive self.now.levels)
            (spec.expr self.now.levels) x tokens.old.rest.now)
            result tokens.new.rest.now }
    {
        let (x, tail) = pair_with(x, self.tail(tokens))?;
        Ok(relate(self.alloc, x, tail)?)
    }

    /// Parses the tail, which may be empty, after the Sum `x`, and returns the relation of both.
    pub(crate) fn related(
        &self,
        tokens: &mut Cursor<'_>,
        x: ExprTree,
    ) -> Result<ExprTree, StopCause>
        requires { Nests self.now.levels (F.pre self.now.expr) (F.post self.now.expr) }
        ensures { ParsesTo (spec.related (is_positive self.now.levels)
            (spec.expr self.now.levels) x tokens.old.rest.now)
            result tokens.new.rest.now }
    {
        self.join_tail(tokens, x)
    }
}
